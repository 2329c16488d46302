//! How symbols and predicates are spelled.
//!
//! A symbol is in prefix form: `L v`, `A e`, `C e`, `E e sym`, `I i`, `+ sym sym`, `* v sym`. A predicate is `TRUE`,
//! `FALSE`, `LE sym sym`, `NE sym sym`, `AND n n`, `OR n n`, `EVERY i sym n`, `RISING i sym sym sym`,
//! `FALLING i sym sym sym` or `STABLE m e .. WRITES e ..` with m read entities.
ghost use Rattle.std.specs.Prelude.{◌≡◌};
ghost use Rattle.pdag_nodes.specs.Nodes.{children_below};

use hyb_base::no_memory::NoMemory;
use hyb_base::nums::Nums;
use pdag_nodes::pred::Pred;
use pdag_nodes::preds::Preds;
use sqlite_items::Boxed;
use std::alloc::Global;
use sym_lmad::sym::Sym;

/// What the words by now spell, read from the last word to the first.
#[derive(Drop)]
pub struct Spelled {
    numbers: Vec<i64>,
    symbols: Vec<Sym>,
}

impl Spelled {
    /// Nothing.
    fn new(alloc: Global) -> Spelled {
        Spelled {
            numbers: Vec::new(alloc),
            symbols: Vec::new(alloc),
        }
    }

    /// The number that comes first.
    fn number(&mut self) -> Option<i64> {
        self.numbers.pop()
    }

    /// The number that comes first, as that of an entity or an index.
    fn name(&mut self) -> Option<u32> {
        u32::try_from(self.numbers.pop()?).ok()
    }

    /// The number that comes first, as that of a predicate.
    fn child(&mut self) -> Option<usize> {
        usize::try_from(self.numbers.pop()?).ok()
    }

    /// The symbol that comes first.
    fn symbol(&mut self) -> Option<Sym> {
        self.symbols.pop()
    }

    /// Whether nothing is left.
    fn is_empty(&self) -> bool {
        self.numbers.is_empty() && self.symbols.is_empty()
    }
}

/// A symbol under a word: none where its parts aren't there.
fn symbol_of(alloc: Global, word: &str, spelled: &mut Spelled) -> Result<Option<Sym>, NoMemory> {
    match word {
        "L" => Ok(spelled.number().map(Sym::Lit)),
        "A" => Ok(spelled.name().map(Sym::Addr)),
        "C" => Ok(spelled.name().map(Sym::Cell)),
        "I" => Ok(spelled.name().map(Sym::Index)),
        "E" => match (spelled.name(), spelled.symbol()) {
            (Some(entity), Some(place)) => Ok(Some(Sym::Elem(entity, Boxed::new(alloc, place)?))),
            _ => Ok(None),
        },
        "+" => match (spelled.symbol(), spelled.symbol()) {
            (Some(left), Some(right)) => {
                let left = Boxed::new(alloc, left)?;
                Ok(Some(Sym::Add(left, Boxed::new(alloc, right)?)))
            }
            _ => Ok(None),
        },
        "*" => match (spelled.number(), spelled.symbol()) {
            (Some(factor), Some(inner)) => Ok(Some(Sym::Mul(factor, Boxed::new(alloc, inner)?))),
            _ => Ok(None),
        },
        _ => Ok(None),
    }
}

/// Takes one more word: whether it can be read.
fn take(alloc: Global, word: &str, spelled: &mut Spelled) -> Result<bool, NoMemory> {
    if let Ok(number) = word.parse::<i64>() {
        spelled.numbers.push(number)?;
        return Ok(true);
    }
    match symbol_of(alloc, word, spelled)? {
        Some(symbol) => {
            spelled.symbols.push(symbol)?;
            Ok(true)
        }
        None => Ok(false),
    }
}

/// What some words spell: none where one can't be read.
fn all_words(alloc: Global, words: &[&str]) -> Result<Option<Spelled>, NoMemory> {
    let mut spelled = Spelled::new(alloc);
    for word in words.iter().rev() {
        if !take(alloc, word, &mut spelled)? {
            return Ok(None);
        }
    }
    Ok(Some(spelled))
}

/// The words of a line.
fn words<'a>(alloc: Global, line: &'a str) -> Result<Vec<&'a str>, NoMemory> {
    let mut words = Vec::new(alloc);
    for word in line.split_whitespace() {
        words.push(word)?;
    }
    Ok(words)
}

/// The numbers of a line: none where a word is no number.
pub fn numbers(alloc: Global, line: &str) -> Result<Option<Nums>, NoMemory> {
    let mut numbers = Nums::new(alloc);
    for word in line.split_whitespace() {
        match word.parse::<i64>() {
            Ok(number) => numbers.push(number)?,
            Err(_) => return Ok(None),
        }
    }
    Ok(Some(numbers))
}

/// The symbol that a line spells.
pub fn symbol(alloc: Global, line: &str) -> Result<Option<Sym>, NoMemory> {
    let words = words(alloc, line)?;
    let Some(mut spelled) = all_words(alloc, words.as_slice())? else {
        return Ok(None);
    };
    let symbol = spelled.symbol();
    if spelled.is_empty() {
        Ok(symbol)
    } else {
        Ok(None)
    }
}

/// The stride and the count that a line spells.
pub fn dimension(alloc: Global, line: &str) -> Result<Option<(i64, Sym)>, NoMemory> {
    let words = words(alloc, line)?;
    let Some(mut spelled) = all_words(alloc, words.as_slice())? else {
        return Ok(None);
    };
    match (spelled.number(), spelled.symbol()) {
        (Some(stride), Some(count)) if spelled.is_empty() => Ok(Some((stride, count))),
        _ => Ok(None),
    }
}

/// The entities before a word, and those after it.
fn stable(alloc: Global, words: &[&str]) -> Result<Option<Pred>, NoMemory> {
    let mut reads = Nums::new(alloc);
    let mut writes = Nums::new(alloc);
    let mut said: Option<i64> = None;
    let mut are_written = false;
    for word in words {
        if *word == "WRITES" {
            are_written = true;
            continue;
        }
        let Ok(number) = word.parse::<i64>() else {
            return Ok(None);
        };
        match said {
            None => said = Some(number),
            Some(_) if are_written => writes.push(number)?,
            Some(_) => reads.push(number)?,
        }
    }
    let count = i64::try_from(reads.len()).ok();
    if are_written && said.is_some() && said == count {
        Ok(Some(Pred::Stable { reads, writes }))
    } else {
        Ok(None)
    }
}

/// The windows of a line, of one direction.
fn windows(spelled: &mut Spelled, rising: bool) -> Option<Pred> {
    let index = spelled.name()?;
    let count = spelled.symbol()?;
    let low = spelled.symbol()?;
    let high = spelled.symbol()?;
    Some(Pred::Ascending {
        index,
        count,
        low,
        high,
        rising,
    })
}

/// The predicate of a word over what the rest of its line spells.
fn pred_of(word: &str, spelled: &mut Spelled) -> Option<Pred> {
    match word {
        "TRUE" => Some(Pred::True),
        "FALSE" => Some(Pred::False),
        "LE" => {
            let left = spelled.symbol()?;
            Some(Pred::Le(left, spelled.symbol()?))
        }
        "NE" => {
            let left = spelled.symbol()?;
            Some(Pred::Ne(left, spelled.symbol()?))
        }
        "AND" => {
            let first = spelled.child()?;
            Some(Pred::And(first, spelled.child()?))
        }
        "OR" => {
            let first = spelled.child()?;
            Some(Pred::Or(first, spelled.child()?))
        }
        "EVERY" => {
            let index = spelled.name()?;
            let count = spelled.symbol()?;
            let body = spelled.child()?;
            Some(Pred::Every { index, count, body })
        }
        "RISING" => windows(spelled, true),
        "FALLING" => windows(spelled, false),
        _ => None,
    }
}

/// The predicate that a line spells.
pub fn pred(alloc: Global, line: &str) -> Result<Option<Pred>, NoMemory> {
    let words = words(alloc, line)?;
    let Some((first, rest)) = words.as_slice().split_first() else {
        return Ok(None);
    };
    if *first == "STABLE" {
        return stable(alloc, rest);
    }
    let Some(mut spelled) = all_words(alloc, rest)? else {
        return Ok(None);
    };
    let pred = pred_of(first, &mut spelled);
    if spelled.is_empty() {
        Ok(pred)
    } else {
        Ok(None)
    }
}

/// Whether the children of a predicate are among the first ones.
fn has_children_below(count: usize, pred: &Pred) -> bool
    ensures { result ≡ children_below count pred.now }
{
    match pred {
        Pred::True => true,
        Pred::False => true,
        Pred::Le(_, _) => true,
        Pred::Ne(_, _) => true,
        Pred::And(first, second) => *first < count && *second < count,
        Pred::Or(first, second) => *first < count && *second < count,
        Pred::Every { body, .. } => *body < count,
        Pred::Ascending { .. } => true,
        Pred::Stable { .. } => true,
    }
}

/// Adds a predicate whose children are in the list: whether they are.
pub fn add(preds: &mut Preds, pred: Pred) -> Result<bool, NoMemory> {
    if !has_children_below(preds.len(), &pred) {
        return Ok(false);
    }
    preds.add(pred)?;
    Ok(true)
}
