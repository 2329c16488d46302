//! The statements of cards.
ghost use Rattle.std.specs.Prelude.{◌≡◌, Ok, Err, IfOk, IsErrOf};
ghost use Rattle.f77_ast.specs.declared.refusal.Refusal.{Refusal};
ghost use Rattle.f77_front.specs.Front.{listed_of, listing_of};

use f77_ast::program::{Card, Listed, Listing};
use f77_ast::refusal::FrontError;
use f77_cards::cards::Cards;
use f77_stmts::stmt::stmt;
use std::alloc::Global;

/// A card with the statement that its text spells, or its refusal.
fn listed(alloc: Global, card: Card) -> Result<Listed, FrontError>
    ensures accepted { IfOk result (λ one. listed_of card ≡ Ok one) }
    ensures refused { (refusal : Refusal) → IsErrOf result (FrontError.Refused refusal) → listed_of card ≡ Err refusal }
{
    match stmt(alloc, &card) {
        Ok(stmt) => Ok(Listed { card, stmt }),
        Err(error) => Err(error),
    }
}

/// The statements that the texts of cards spell, or the refusal of the first card that spells none.
pub fn listing(alloc: Global, cards: Cards) -> Result<Listing, FrontError>
    ensures accepted { IfOk result (λ all. listing_of cards ≡ Ok all) }
    ensures refused { (refusal : Refusal) → IsErrOf result (FrontError.Refused refusal) → listing_of cards ≡ Err refusal }
{
    let mut all = Listing::new(alloc);
    for card in cards.into_vec() {
        all.push(listed(alloc, card)?)?;
    }
    Ok(all)
}
