// What filling a goal answers.
ghost use Rattle.step.specs.Lent.{SameLent};
ghost use Rattle.filling.specs.Fill.{beside, Refuses};

use editing::EDITED;
use entry::Counts;
use entry::rooms::clear_rooms;
use numbers::refusal::Refusal;
use numbers::room::clear;
use std::fmt;
use step::lent::Lent;

// The table that a refusal's place is in, under its number for callers in C.
#[derive(Clone, Copy, Debug, PartialEq, Eq)]
pub enum Which {
    Old = 0,
    Filling = 1,
    Edit = 2,
}

impl fmt::Display for Which {
    ghost use Rattle.std.specs.Prelude.{Some, codes};
    ghost use Rattle.filling.specs.declared.answer.Which.TheVariants.{Old, Filling, Edit};

    ghost output = { λ w. Some (elim w [ Old ↦ codes "old" | Filling ↦ codes "filling" | Edit ↦ codes "edited" ]) };

    fn fmt<W: fmt::Write>(&self, f: &mut fmt::Formatter<W>) -> fmt::Result {
        match self {
            Which::Old => write!(f, "old"),
            Which::Filling => write!(f, "filling"),
            Which::Edit => write!(f, "edited"),
        }
    }
}

// Why a goal was not filled, and where.
#[derive(Clone, Copy, Debug, PartialEq, Eq)]
pub struct Rejection {
    pub refusal: Refusal,
    pub which: Which,
}

// A refusal, with all rooms emptied.
pub fn refuse(
    lent: &mut Lent<'_>,
    edited: &mut [u8],
    refusal: Refusal,
    which: Which,
) -> Result<Counts, Rejection>
    ensures done { Refuses (beside lent.old edited.old) (beside lent.new edited.new) refusal which result }
    ensures same_rooms { SameLent lent.old lent.new }
{
    clear_rooms(lent);
    clear(edited, EDITED);
    Err(Rejection { refusal, which })
}
