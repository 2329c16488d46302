//! Laws of the definition of cards: functions with nothing to do.
ghost use Rattle.f77_cards.specs.Laws.{LinesOfCardsRise, LabelsAreInRange};

/// A law: the lines of a file's cards rise.
pub fn law_of_rising_lines()
    ensures { LinesOfCardsRise }
{}

/// A law: the labels of a file's cards are from 1 to 99,999.
pub fn law_of_labels()
    ensures { LabelsAreInRange }
{}
