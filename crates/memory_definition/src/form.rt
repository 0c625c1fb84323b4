// How a node stands in the controller's memory (document 02, Q-1). Which form a node has is in specs/Forms.antt.
#[derive(Clone, Copy)]
pub enum Form {
    // an array's or a structure's head: no byte of its own
    Head,
    // four zero bytes
    Null,
    // one byte
    Bool,
    // so many bits, in two's complement where signed; read as a literal of a kind and a width
    Number {
        signed: bool,
        bits: u32,
        kind: u32,
        width: u32,
    },
    // a REAL, in 32 bits
    Real,
    // an LREAL, in 64 bits
    LongReal,
    // a greatest length, 0 narrow or 1 wide
    String {
        most: u32,
        width: u32,
    },
    // a run of members
    Enumeration {
        first: u32,
        count: u32,
    },
    // nothing can stand there
    Nothing,
}
