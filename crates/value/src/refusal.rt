// The refusals, each under one name, with the document's own words, and by its number.
ghost use Rattle.std.specs.Prelude.{◌≡◌};
ghost use Rattle.value.specs.Refusal.{number_of};

#[derive(Clone, Copy, Debug, PartialEq, Eq)]
pub enum Refusal {
    // Loading.
    // bytes run out, in a number before its tenth
    BytesRunOut = 1,
    // number malformed
    Malformed = 2,
    // unknown tag, flag, opcode or version, or a value too large for its width or kind
    Unknown = 3,
    // a count, size or running total over its limit
    OverLimit = 4,
    // a variable, label, constant or function beyond its count
    BeyondCount = 5,
    // bytes left over
    LeftOver = 6,

    // Entries.
    // state not sound
    NotSound = 10,
    // start on a running machine
    Running = 11,
    // run on an idle one
    Idle = 12,
    // no such function
    NoFunction = 13,
    // wrong number of arguments
    WrongArguments = 14,
    // a Char that is no scalar value
    NotScalar = 15,
    // list table shorter than the pointers
    ShortTable = 41,
    // image writer's buffer too short
    ShortBuffer = 42,

    // Steps.
    // no instruction at this place
    NoInstruction = 20,
    // variable never set
    NeverSet = 21,
    // wrong kinds for the instruction
    WrongKinds = 22,
    // integer result outside its width
    OutsideWidth = 23,
    // integer division by zero
    ZeroDivisor = 24,
    // pointer number not given out
    NotGivenOut = 25,
    // write or offset through a constant pointer
    ThroughConstant = 26,
    // frame index not on the stack, or its id differs
    FrameGone = 27,
    // no such allocation in that frame
    NoAllocation = 28,
    // offset + size beyond the length
    BeyondLength = 29,
    // size does not divide offset; size 0 divides only 0
    Misaligned = 30,
    // Bool read from a byte above 1
    NotBool = 31,
    // value returned where the call had no place
    NoReturnPlace = 32,
    // offset sum above 2^64 - 1
    OffsetTooLarge = 33,
    // Initialize bytes exceed its size
    BytesExceedSize = 34,
    // 64 frames stand, root included
    FramesFull = 35,
    // id counter is 4,294,967,295
    IdsSpent = 36,
    // 512 live allocations
    AllocationsFull = 37,
    // live bytes plus the request exceed 32,768
    BytesFull = 38,
    // 4,096 pointers given out
    PointersFull = 39,
    // constant not in this image
    NoConstant = 40,
}

impl Refusal {
    pub fn number(self) -> u64
        ensures { result ≡ number_of self }
    {
        self as u64
    }
}
