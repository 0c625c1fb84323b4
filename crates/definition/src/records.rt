// One record as a value, by its kind (document 01, "Sections, their makers and readers"). Which words give which value is in specs/Records.antt.
// Numbers, links and runs stand as the file has them. `Unknown` is a kind that no accepted file has.

// What a type is: the Rust's `SemanticType`.
#[derive(Clone, Copy)]
pub enum Shape {
    Bool,
    Int {
        bits: u32,
    },
    UInt {
        bits: u32,
    },
    Real {
        bits: u32,
    },
    Bytes {
        bits: u32,
    },
    Time {
        bits: u32,
    },
    Date {
        bits: u32,
    },
    TimeOfDay {
        bits: u32,
    },
    DateAndTime {
        bits: u32,
    },
    // 1 + length, or 0 for none
    String {
        length: u32,
        width: u32,
    },
    Enumeration {
        first: u32,
        count: u32,
        default: u32,
        underlying: u32,
    },
    Structure {
        first: u32,
        count: u32,
    },
    Array {
        element: u32,
        first: u32,
        count: u32,
    },
    Subrange {
        base: u32,
        least: u32,
        greatest: u32,
    },
    FunctionBlock {
        name: u32,
    },
    Interface {
        name: u32,
    },
    Reference {
        target: u32,
    },
    Unknown,
}

// How a type is declared: the Rust's `DataTypeDeclarationKind`, or a function block.
#[derive(Clone, Copy)]
pub enum Declaration {
    Nothing,
    Simple { initializer: u32 },
    Subrange { named: u32, start: u32 },
    String { start: u32 },
    Array { named: u32, first: u32, count: u32 },
    Structure { first: u32, count: u32 },
    Reference { named: u32 },
    Enumeration { named: u32 },
    LateBound { named: u32 },
    FunctionBlock { first: u32, count: u32 },
    Unknown,
}

// The Rust's `InitialValueAssignmentKind`, in the order of the arms of `Resolver::initializer`. The type it names stands apart.
#[derive(Clone, Copy)]
pub enum Initializer {
    Nothing,
    Interface,
    Subrange { value: u32 },
    Simple { value: u32 },
    String { value: u32, length: u32, width: u32 },
    EnumeratedValues { value: u32 },
    EnumeratedType { value: u32 },
    FunctionBlock { first: u32, count: u32 },
    Structure { first: u32, count: u32 },
    Array { first: u32, count: u32 },
    Reference { value: u32 },
    LateResolved { value: u32 },
    Call,
    SimpleExpression,
    StringExpression,
    Unknown,
}

// The Rust's `StructInitialValueAssignmentKind` and `ArrayInitialElementKind`. An entry's name stands apart.
#[derive(Clone, Copy)]
pub enum Entry {
    Constant { number: u32 },
    Enumerated { value: u32, qualifier: u32 },
    Array { first: u32, count: u32 },
    Structure { first: u32, count: u32 },
    Expression { number: u32 },
    LateBound,
    Repeat { count: u32, inner: u32 },
    Unknown,
}

// The Rust's `ExprKind`.
#[derive(Clone, Copy)]
pub enum Expression {
    Constant { number: u32 },
    Enumerated { entry: u32 },
    Parentheses { inner: u32 },
    Conversion { inner: u32 },
    Null,
    Reference,
    Other,
    Unknown,
}

// The Rust's `ConstantKind`: the same five words in every kind, which a node holds too.
#[derive(Clone, Copy, PartialEq, Eq)]
pub struct Constant {
    pub kind: u32,
    pub sign: u32,
    pub low: u32,
    pub high: u32,
    pub width: u32,
}

// A variable, a field or an element: what it is, and links to its type and its element type where it has them (`Place` of resolver.rs).
#[derive(Clone, Copy)]
pub struct Place {
    pub shape: Shape,
    pub id: u32,
    pub element: u32,
}
