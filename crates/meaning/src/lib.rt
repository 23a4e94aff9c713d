// The plain types that the definition in specs/ and all code above share.

#![tactic(auto)]

ghost use Rattle.std.specs.Prelude.{◌≡◌};
ghost use Rattle.std.proofs.Common.{to_z};
ghost use Rattle.std.specs.Int.{w64};
ghost use Rattle.meaning.specs.Number.{seconds_of};

// a string's number, in the strings' order
#[derive(Clone, Copy, PartialEq, Eq)]
pub struct StrNo(pub u32);

// a value's number
#[derive(Clone, Copy, PartialEq, Eq)]
pub struct ValNo(pub u32);

// a node's number
#[derive(Clone, Copy, PartialEq, Eq)]
pub struct NodeNo(pub u32);

// a run of a table: its first record, and how many items
#[derive(Clone, Copy, PartialEq, Eq)]
pub struct Run {
    pub first: u32,
    pub count: u32,
}

#[derive(Clone, Copy, PartialEq, Eq)]
pub enum TimeUnit {
    Seconds,
    Minutes,
    Hours,
    Days,
}

impl TimeUnit {
    pub const SECOND: u64 = 1;

    pub const MINUTE: u64 = 60;

    pub const HOUR: u64 = 3600;

    pub const DAY: u64 = 86400;

    // the unit's own seconds; an Interval's saturating product is `numbers::seconds`
    pub fn seconds(self) -> u64
        ensures { to_z w64 result ≡ seconds_of self }
    {
        match self {
            TimeUnit::Seconds => TimeUnit::SECOND,
            TimeUnit::Minutes => TimeUnit::MINUTE,
            TimeUnit::Hours => TimeUnit::HOUR,
            TimeUnit::Days => TimeUnit::DAY,
        }
    }
}

// a window's length: the 64 bits of a signed amount, and its unit
#[derive(Clone, Copy, PartialEq, Eq)]
pub struct Interval {
    pub amount: u64,
    pub unit: TimeUnit,
}

// where a time lies, seen from another: in the window, before it, or later than the time seen from
#[derive(Clone, Copy, PartialEq, Eq)]
pub enum Window {
    Inside,
    TooOld,
    Later,
}

#[derive(Clone, Copy, PartialEq, Eq)]
pub enum CmpOp {
    Le,
    Lt,
    Ge,
    Gt,
    Eq,
    NotEq,
}

#[derive(Clone, Copy, PartialEq, Eq)]
pub enum ArithOp {
    Add,
    Sub,
    Mul,
}

#[derive(Clone, Copy, PartialEq, Eq)]
pub enum Root {
    Principal,
    Resource,
}

// conditions, terms, aggregates; Broken is what no checked case has
#[derive(Clone, Copy)]
pub enum Node {
    And(NodeNo, NodeNo),
    Or(NodeNo, NodeNo),
    Not(NodeNo),
    Formerly(Interval, NodeNo),
    Previous(Interval, NodeNo),
    Since(NodeNo, NodeNo, Interval),
    Predicate {
        namespace: Run,
        action: StrNo,
        kind: StrNo,
        arguments: Run,
    },
    Comparison(CmpOp, NodeNo, NodeNo),
    Exists(u32, NodeNo),
    Tp(u32),
    Literal(ValNo),
    Context(Run),
    Scope(Root, Run),
    Variable(u32),
    Wildcard,
    Aggregate(NodeNo),
    Arithmetic(ArithOp, NodeNo, NodeNo),
    Sum {
        variable: u32,
        binders: Run,
        body: NodeNo,
    },
    Count {
        binders: Run,
        body: NodeNo,
    },
    Broken,
}

// a variable's two cells: 0,0 unbound; 1 and an integer's bits; 2 and a value's number; 3 and a string's number
#[derive(Clone, Copy, PartialEq, Eq)]
pub struct Binding {
    pub tag: u64,
    pub bits: u64,
}

// the bindings in force: a slot for each variable, of which the case has `count`
#[derive(Clone, Copy)]
pub struct Env {
    pub slots: [Binding; 16],
    pub count: usize,
}

// the most steps that a call may spend, and the most rows that it may hold
#[derive(Clone, Copy)]
pub struct Limits {
    pub steps: u64,
    pub room: usize,
}

// steps spent, rows held now, the greatest number of rows held
#[derive(Clone, Copy)]
pub struct Meter {
    pub steps: u64,
    pub held: usize,
    pub most: usize,
}

// what UTF-8 wants after the bytes so far
#[derive(Clone, Copy)]
pub enum Due {
    Nothing,
    One,
    Two,
    Three,
    AfterE0,
    AfterEd,
    AfterF0,
    AfterF4,
    Wrong,
}

// what a call says no with, in the order of their numbers
#[derive(Clone, Copy, PartialEq, Eq)]
pub enum Refusal {
    BadContents,
    TooLarge,
    BadStrings,
    BadValues,
    BadPoints,
    BadNodes,
    NoSuchPoint,
    NoSuchNode,
    BadStart,
    BadLimits,
    StepsExhausted,
    RoomExhausted,
    BadOutput,
    OutputTooShort,
    ListTooShort,
}
