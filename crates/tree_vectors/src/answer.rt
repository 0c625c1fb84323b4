// What a case answers, as its line says it.
use std::fmt;
use tree::extent::Span;
use tree::node::Node;
use tree::part::Value;
use tree_changes::grow::Unfit;
use tree_changes::limit::Misfit;

#[derive(Clone, Copy)]
pub enum Answer {
    Test(bool),
    End(Option<usize>),
    Value(Option<Value>),
    Part(Option<Span>),
    Node(Option<Node>),
    Added(Result<(), Misfit>),
    Grown(Result<usize, Unfit>),
}

fn value<W: fmt::Write>(f: &mut fmt::Formatter<W>, v: Value) -> fmt::Result {
    match v {
        Value::Leaf => write!(f, "leaf"),
        Value::Array(count) => write!(f, "array {count}"),
        Value::Structure(count) => write!(f, "structure {count}"),
    }
}

fn node<W: fmt::Write>(f: &mut fmt::Formatter<W>, n: Node) -> fmt::Result {
    let c = n.value;
    write!(
        f,
        "{} {} {} {} {} {}",
        n.name, c.kind, c.sign, c.low, c.high, c.width
    )
}

impl fmt::Display for Answer {
    fn fmt<W: fmt::Write>(&self, f: &mut fmt::Formatter<W>) -> fmt::Result {
        match *self {
            Answer::Test(true) => write!(f, "yes"),
            Answer::Test(false) => write!(f, "no"),
            Answer::End(Some(end)) => write!(f, "ends {end}"),
            Answer::End(None) => write!(f, "not"),
            Answer::Value(Some(v)) => value(f, v),
            Answer::Value(None) => write!(f, "not"),
            Answer::Part(Some(p)) => write!(f, "at {} {}", p.begin, p.end),
            Answer::Part(None) => write!(f, "nothing"),
            Answer::Node(Some(n)) => node(f, n),
            Answer::Node(None) => write!(f, "past"),
            Answer::Added(Ok(())) => write!(f, "fits"),
            Answer::Added(Err(Misfit::TooMany)) => write!(f, "many"),
            Answer::Added(Err(Misfit::TooLarge)) => write!(f, "large"),
            Answer::Grown(Ok(end)) => write!(f, "ends {end}"),
            Answer::Grown(Err(Unfit::TooLarge)) => write!(f, "large"),
            Answer::Grown(Err(Unfit::Outside)) => write!(f, "not"),
        }
    }
}
