// Every operation: its name and the kinds of its parameters, its number, and the family of those that take alike.
ghost use Rattle.std.specs.Prelude.{◌≡◌, map};
ghost use Rattle.std.specs.Option.{option_map};
ghost use Rattle.replay_calls.specs.declared.operations.Operation.{Operation};
ghost use Rattle.replay_calls.specs.declared.operations.TheConstants.{OPERATIONS};
ghost use Rattle.replay_calls.specs.Operations.{found, find_in, held, find_listed, operation_at};
ghost use Rattle.replay_calls.specs.Families.{family_of};

#[derive(Clone, Copy, PartialEq, Eq)]
pub enum Operation {
    BlockNew,
    BlockNewUnmarked,
    BlockLen,
    BlockLenMarked,
    BlockHasMarked,
    BlockHasUnmarked,
    TauHat,
    IsTauHat,
    BlockNumber,
    IsElementMarked,
    ReadBlock,
    NumOfBlocks,
    Len,
    IterBlockRefusal,
    OutgoingTransitions,
    NextIncoming,
    IsSubsetOf,
    IterBlock,
    Display,
    MarkElement,
    Incoming,
    Reachable,
    SortTopological,
    BlockUnmarkAll,
    SwapBlocksHost,
    BlockPartitionNew,
    SwapBlocks,
    SplitMarked,
    MarkBackwardClosure,
    PartitionMarkedWith,
    StrongBisimSignature,
    BranchingBisimSignatureInductive,
    BranchingBisimSignature,
    BranchingBisimSignatureSorted,
    QuotientLtsNaive,
    QuotientLtsBlock,
    RemoveRedundantTransitions,
    TauSccDecomposition,
    TauCycleEliminationAndReorder,
    StrongReduction,
    ReadFile,
    WriteFile,
    ReduceFile,
}

// An operation in the list: its name, the kinds of its parameters, a letter for each (`replay_slots::kinds::Kind` says what they are), and
// which it is.
type Entry = (&'static [u8], &'static [u8], Operation);

pub const OPERATIONS: [Entry; 43] = [
    (b"Block::new", b"nn", Operation::BlockNew),
    (b"Block::new_unmarked", b"nn", Operation::BlockNewUnmarked),
    (b"Block::len", b"nnn", Operation::BlockLen),
    (b"Block::len_marked", b"nnn", Operation::BlockLenMarked),
    (b"Block::has_marked", b"nnn", Operation::BlockHasMarked),
    (b"Block::has_unmarked", b"nnn", Operation::BlockHasUnmarked),
    (b"tau_hat", b"n", Operation::TauHat),
    (b"is_tau_hat", b"nn", Operation::IsTauHat),
    (b"block_number", b"nnccccccn", Operation::BlockNumber),
    (
        b"is_element_marked",
        b"nnccccccn",
        Operation::IsElementMarked,
    ),
    (b"read_block", b"nnccccccn", Operation::ReadBlock),
    (b"num_of_blocks", b"nncccccc", Operation::NumOfBlocks),
    (b"len", b"nncccccc", Operation::Len),
    (
        b"iter_block_refusal",
        b"nnccccccn",
        Operation::IterBlockRefusal,
    ),
    (
        b"outgoing_transitions",
        b"nnnncccn",
        Operation::OutgoingTransitions,
    ),
    (b"next_incoming", b"nnnncccnn", Operation::NextIncoming),
    (b"is_subset_of", b"ccccnn", Operation::IsSubsetOf),
    (b"iter_block", b"nnccccccn", Operation::IterBlock),
    (b"display", b"nncccccct", Operation::Display),
    (b"mark_element", b"nnmmccmcn", Operation::MarkElement),
    (b"incoming", b"nnnncccmm", Operation::Incoming),
    (b"reachable", b"nnnncccfnmm", Operation::Reachable),
    (
        b"sort_topological",
        b"nnnncccffmmm",
        Operation::SortTopological,
    ),
    (b"Block::unmark_all", b"nnn", Operation::BlockUnmarkAll),
    (b"swap_blocks_host", b"nnccmrnn", Operation::SwapBlocksHost),
    (
        b"BlockPartition::new",
        b"nmmmmmm",
        Operation::BlockPartitionNew,
    ),
    (b"swap_blocks", b"nnccmmmmnn", Operation::SwapBlocks),
    (b"split_marked", b"nnmmmmmmnb", Operation::SplitMarked),
    (
        b"mark_backward_closure",
        b"nnnncccmmccmcnnmm",
        Operation::MarkBackwardClosure,
    ),
    (
        b"partition_marked_with",
        b"nnmmmmmmncmmm",
        Operation::PartitionMarkedWith,
    ),
    (
        b"strong_bisim_signature",
        b"nnnncccccccccnnmmmmmm",
        Operation::StrongBisimSignature,
    ),
    (
        b"branching_bisim_signature_inductive",
        b"nnnncccccccccnncmmmmmm",
        Operation::BranchingBisimSignatureInductive,
    ),
    (
        b"branching_bisim_signature",
        b"nnnncccccccccnnmmmmmmmm",
        Operation::BranchingBisimSignature,
    ),
    (
        b"branching_bisim_signature_sorted",
        b"nnnncccccccccnnwccmmmmmmmmm",
        Operation::BranchingBisimSignatureSorted,
    ),
    (
        b"quotient_lts_naive",
        b"nnnncccccccccnffssssssss",
        Operation::QuotientLtsNaive,
    ),
    (
        b"quotient_lts_block",
        b"nnnncccccccccnffsssssssss",
        Operation::QuotientLtsBlock,
    ),
    (
        b"remove_redundant_transitions",
        b"nnnncccssssssssss",
        Operation::RemoveRedundantTransitions,
    ),
    (
        b"tau_scc_decomposition",
        b"nnnncccssssssss",
        Operation::TauSccDecomposition,
    ),
    (
        b"tau_cycle_elimination_and_reorder",
        b"nnnncccnfssssssssssss",
        Operation::TauCycleEliminationAndReorder,
    ),
    (
        b"strong_reduction",
        b"nnnncccssssssssssssss",
        Operation::StrongReduction,
    ),
    (b"read_file", b"bsss", Operation::ReadFile),
    (b"write_file", b"nnnncccnct", Operation::WriteFile),
    (b"reduce_file", b"bt", Operation::ReduceFile),
];

// An operation and the kinds of its parameters.
#[derive(Clone, Copy)]
pub struct Found {
    pub operation: Operation,
    pub kinds: &'static [u8],
}

// The operation with a name in a list.
pub fn find_in(entries: &[Entry], name: &[u8]) -> Option<Found>
    ensures value { option_map found result ≡ find_in entries.now name.now }
    ensures listed { option_map found result ≡ find_listed (map held entries.now) name.now }
{
    entries
        .iter()
        .find(|(listed, _, _)| *listed == name)
        .map(|&(_, kinds, operation)| Found { operation, kinds })
}

// The operation with this name.
pub fn find(name: &[u8]) -> Option<Found>
    ensures { option_map found result ≡ find_listed OPERATIONS name.now }
{
    find_in(&OPERATIONS, name)
}

// The families: the operations on numbers alone; those that read a partition; those that read a table or lists of pairs; the one that
// answers a part; the one that writes text; those that change two or three slices of u16; those on block records; those that change four to
// six; the one that changes nine; the signatures that change six; those that change eight or nine; those that make a table, or components,
// of a table, which change eight to fourteen; and those on files.
#[derive(Clone, Copy, PartialEq, Eq)]
pub enum Family {
    Numbers,
    Readers,
    Tables,
    Parts,
    Texts,
    Few,
    Records,
    Six,
    Dividing,
    Signing,
    Walking,
    Reducing,
    Filing,
}

impl Operation {
    // The family of an operation.
    pub fn family(self) -> Family
        ensures { result ≡ family_of self }
    {
        match self {
            Operation::BlockNew
            | Operation::BlockNewUnmarked
            | Operation::BlockLen
            | Operation::BlockLenMarked
            | Operation::BlockHasMarked
            | Operation::BlockHasUnmarked
            | Operation::TauHat
            | Operation::IsTauHat => Family::Numbers,
            Operation::BlockNumber
            | Operation::IsElementMarked
            | Operation::ReadBlock
            | Operation::NumOfBlocks
            | Operation::Len
            | Operation::IterBlockRefusal => Family::Readers,
            Operation::OutgoingTransitions | Operation::NextIncoming | Operation::IsSubsetOf =>
                Family::Tables,
            Operation::IterBlock => Family::Parts,
            Operation::Display => Family::Texts,
            Operation::MarkElement
            | Operation::Incoming
            | Operation::Reachable
            | Operation::SortTopological => Family::Few,
            Operation::BlockUnmarkAll | Operation::SwapBlocksHost => Family::Records,
            Operation::BlockPartitionNew
            | Operation::SwapBlocks
            | Operation::SplitMarked
            | Operation::MarkBackwardClosure => Family::Six,
            Operation::PartitionMarkedWith => Family::Dividing,
            Operation::StrongBisimSignature | Operation::BranchingBisimSignatureInductive =>
                Family::Signing,
            Operation::BranchingBisimSignature | Operation::BranchingBisimSignatureSorted =>
                Family::Walking,
            Operation::QuotientLtsNaive
            | Operation::QuotientLtsBlock
            | Operation::RemoveRedundantTransitions
            | Operation::TauSccDecomposition
            | Operation::TauCycleEliminationAndReorder
            | Operation::StrongReduction => Family::Reducing,
            Operation::ReadFile | Operation::WriteFile | Operation::ReduceFile => Family::Filing,
        }
    }
}

// The operation at a place of a list, counted from 1. What is no place of it means `reduce_file`.
fn operation_at(entries: &[Entry], number: usize) -> Operation
    ensures { result ≡ operation_at entries.now number }
{
    if number == 0 {
        return Operation::ReduceFile;
    }
    entries
        .get(number - 1)
        .map_or(Operation::ReduceFile, |entry| entry.2)
}

// What says which operation is meant: the operation, or its number, which is its place in `OPERATIONS`, counted from 1. Any other number
// means `reduce_file`.
pub trait Numbered: Copy {
    ghost which: { Self → Operation };

    fn which(self) -> Operation
        ensures { result ≡ which self };

    // Its family.
    fn family(self) -> Family
        ensures { result ≡ family_of (which self) }
    {
        self.which().family()
    }
}

impl Numbered for Operation {
    ghost which = { λ operation. operation };

    fn which(self) -> Operation {
        self
    }
}

impl Numbered for usize {
    ghost which = { λ number. operation_at OPERATIONS number };

    fn which(self) -> Operation {
        operation_at(&OPERATIONS, self)
    }
}
