//! Laws that join the texts that are spelled with what is read: functions with nothing to do.
ghost use Rattle.f77_stmts.specs.Laws.{NoTextSpellsTwoStatements, WhatIsReadIsSpelled, WhatIsSpelledIsRead};

/// A law: what is read of a text is spelled so.
pub fn law_of_reading()
    ensures { WhatIsReadIsSpelled }
{}

/// A law: what is spelled is read.
pub fn law_of_spelling()
    ensures { WhatIsSpelledIsRead }
{}

/// A law: no text spells two statements.
pub fn law_of_one_statement()
    ensures { NoTextSpellsTwoStatements }
{}
