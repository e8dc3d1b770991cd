// Well-formed UTF-16: surrogates stand in pairs, the high one first.
ghost use Rattle.std.specs.Prelude.{◌≡◌, List, ◌∷◌, ℕ};
ghost use Rattle.text.specs.Code.Step.{good_from};

// Where a check stands after some units: between characters, inside a pair, or past a fault.
#[derive(Clone, Copy)]
pub enum State {
    Whole,
    Half,
    Bad,
}

// A unit that begins a character.
#[tactic(auto, using(crate::proofs::Units::unit_laws))]
fn first_unit(u: u16) -> State
    ensures { (us : List ℕ) → good_from result us ≡ good_from State.Whole (u ∷ us) }
{
    match u {
        0x0000..=0xD7FF => State::Whole,
        0xD800..=0xDBFF => State::Half,
        0xDC00..=0xDFFF => State::Bad,
        0xE000..=0xFFFF => State::Whole,
    }
}

// The second unit of a pair.
#[tactic(auto, using(crate::proofs::Units::unit_laws))]
fn second_unit(u: u16) -> State
    ensures { (us : List ℕ) → good_from result us ≡ good_from State.Half (u ∷ us) }
{
    match u {
        0xDC00..=0xDFFF => State::Whole,
        _ => State::Bad,
    }
}

// Where the check stands after one unit more.
pub fn next_unit(state: State, u: u16) -> State
    ensures { (us : List ℕ) → good_from result us ≡ good_from state (u ∷ us) }
{
    match state {
        State::Whole => first_unit(u),
        State::Half => second_unit(u),
        State::Bad => State::Bad,
    }
}
