// One block, by value: the positions begin..end of the element list, of which marked_split..end are marked.
ghost use Rattle.std.specs.Prelude.{◌≡◌};
ghost use Rattle.columns.specs.Answers.{said_number, said_flag};
ghost use Rattle.partition.specs.Block.{said_block, new_block, boundedb, len, len_marked, has_marked, has_unmarked};

use crate::checks::within;
use columns::answers::{Answer, Refusal};
use columns::limits::MAX_STATES;

#[derive(Clone, Copy, PartialEq, Eq, Debug)]
pub struct Block {
    pub begin: u16,
    pub marked_split: u16,
    pub end: u16,
}

// The block from begin to end with this split; 8 at end where the bounds are broken.
#[tactic(auto, unfolding(crate::specs::Block::new_block))]
fn bounded(begin: u16, marked_split: u16, end: u16) -> Answer<Block>
    ensures { said_block result ≡ new_block begin marked_split end }
{
    if !within(
        begin as usize,
        marked_split as usize,
        end as usize,
        MAX_STATES,
    ) {
        let argument = end as u64;
        return Answer::refused(Refusal::OutOfRange { argument });
    }
    Answer::done(Block {
        begin,
        marked_split,
        end,
    })
}

impl Block {
    // Every element marked.
    pub fn new(begin: u16, end: u16) -> Answer<Block>
        ensures { said_block result ≡ new_block begin begin end }
    {
        bounded(begin, begin, end)
    }

    // No element marked.
    pub fn new_unmarked(begin: u16, end: u16) -> Answer<Block>
        ensures { said_block result ≡ new_block begin end end }
    {
        bounded(begin, end, end)
    }

    // Whether the bounds hold.
    #[tactic(auto, unfolding(crate::specs::Block::boundedb))]
    fn sound(self) -> bool
        ensures { result ≡ boundedb self }
    {
        within(
            self.begin as usize,
            self.marked_split as usize,
            self.end as usize,
            MAX_STATES,
        )
    }

    // How many elements it has.
    #[tactic(auto, unfolding(crate::specs::Block::len))]
    pub fn len(self) -> Answer<u64>
        ensures { said_number result ≡ len self }
    {
        if !self.sound() {
            return Answer::refused(Refusal::Inconsistent);
        }
        Answer::done((self.end - self.begin) as u64)
    }

    // How many of them are marked.
    #[tactic(auto, unfolding(crate::specs::Block::len_marked))]
    pub fn len_marked(self) -> Answer<u64>
        ensures { said_number result ≡ len_marked self }
    {
        if !self.sound() {
            return Answer::refused(Refusal::Inconsistent);
        }
        Answer::done((self.end - self.marked_split) as u64)
    }

    // Whether one is marked.
    #[tactic(auto, unfolding(crate::specs::Block::has_marked))]
    pub fn has_marked(self) -> Answer<bool>
        ensures { said_flag result ≡ has_marked self }
    {
        if !self.sound() {
            return Answer::refused(Refusal::Inconsistent);
        }
        Answer::done(self.marked_split < self.end)
    }

    // Whether one is not.
    #[tactic(auto, unfolding(crate::specs::Block::has_unmarked))]
    pub fn has_unmarked(self) -> Answer<bool>
        ensures { said_flag result ≡ has_unmarked self }
    {
        if !self.sound() {
            return Answer::refused(Refusal::Inconsistent);
        }
        Answer::done(self.begin < self.marked_split)
    }
}
