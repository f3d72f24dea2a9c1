//! What is seen of the slots of a file.

ghost use Rattle.std.specs.Prelude.{◌≡◌, ℕ, List};
ghost use Rattle.std.specs.Option.{option_map};
ghost use Rattle.ic_inspect.specs.Seeing.{IsLookedAt, IsNewestOf, IsTableOf};
ghost use Rattle.ic_inspect.specs.inner.Held.{held_by_body, held_by_slot, held_of, table_of};

use crate::choosing::{Newest, newest_of};
use ic_jobs::Table;

/// What the body of a slot is.
#[derive(Drop)]
pub enum Body {
    /// It is longer than a body may be.
    TooLong,
    /// It is no longer than that, and the file ends before it does.
    CutShort,
    /// It lies within the file, and is the form of no table.
    NoTable,
    /// It lies within the file, and is a form of this table.
    Holds(Table),
}

impl Body {
    /// The table of which it is a form.
    fn table(&self) -> Option<&Table>
        ensures { option_map (λ table. table.now) result ≡ table_of (held_by_body self.now) }
    {
        match self {
            Body::Holds(table) => Some(table),
            Body::TooLong | Body::CutShort | Body::NoTable => None,
        }
    }
}

/// What is seen of a slot whose head lies within the file.
#[derive(Drop)]
pub struct Seen {
    pub opened: bool,
    pub number: u64,
    /// How many bytes its body has.
    pub size: u32,
    pub body: Body,
}

/// What is seen of the two slots of a file: nothing of one whose head doesn't lie within it.
#[derive(Drop)]
pub struct Looked {
    pub first: Option<Seen>,
    pub second: Option<Seen>,
}

impl Looked {
    /// The newest open slot of the file, or why there is none.
    pub fn newest(&self) -> Newest
        ensures { (file : List ℕ) → IsLookedAt self.now file → IsNewestOf result file }
    {
        ic_frames::laws::a_slot_is_open_or_whole();
        newest_of(&self.first, &self.second)
    }

    /// The table that the file holds, if it holds one: what an opening of the disk finds.
    pub fn table(&self) -> Option<&Table>
        ensures { (file : List ℕ) → IsLookedAt self.now file
            → IsTableOf (option_map (λ table. table.now) result) file }
    {
        ic_frames::laws::a_slot_is_open_or_whole();
        ic_frames::laws::the_newest_slot_is_held();
        ic_slots::laws::the_newest_table_is_held();
        ic_slots::laws::one_is_held();
        self.seen_table()
    }

    /// The table of the newest open slot that is seen, if it has one.
    fn seen_table(&self) -> Option<&Table>
        ensures { option_map (λ table. table.now) result
            ≡ table_of (held_of self.now.first self.now.second) }
    {
        match newest_of(&self.first, &self.second) {
            Newest::First => table_in(&self.first),
            Newest::Second => table_in(&self.second),
            Newest::NoSlot | Newest::TwoAlike => None,
        }
    }
}

/// The table that a slot has, if it has one.
fn table_in(seen: &Option<Seen>) -> Option<&Table>
    ensures { option_map (λ table. table.now) result ≡ table_of (held_by_slot seen.now) }
{
    match seen {
        Some(seen) => seen.body.table(),
        None => None,
    }
}
