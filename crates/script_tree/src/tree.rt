//! The syntax tree of a process. It follows the grammar, with numbers in place of names. Long lists
//! are linked, and all parts that a machine keeps stand behind an `Arc`, so that it can share them.

use std::sync::Arc;

/// What a name stands for: a variable of the process or a channel, each by its number.
#[derive(Clone, Copy, Debug, PartialEq, Eq)]
pub enum Name {
    Variable(usize),
    Channel(u8),
}

/// A term that is no sum.
#[derive(Clone, Copy, Debug, PartialEq, Eq)]
pub enum Operand {
    Number(u32),
    Named(Name),
}

/// Whether a term is added to what stands before it, or taken away.
#[derive(Clone, Copy, Debug, PartialEq, Eq)]
pub enum Sign {
    Plus,
    Minus,
}

/// An operand, and the terms that are added to it or taken away, from left to right.
#[derive(Debug, Drop)]
#[cycle(expr)]
pub struct Expr {
    pub first: Operand,
    pub more: Terms,
}

/// The further terms of an expression.
#[derive(Debug)]
#[cycle(expr)]
pub enum Terms {
    Nothing,
    More(Sign, Term, Arc<Terms>),
}

/// A term behind a sign. One that is an expression of several terms stood in parentheses.
#[derive(Debug, Drop)]
#[cycle(expr)]
pub enum Term {
    Operand(Operand),
    Sum(Arc<Expr>),
}

impl Drop for Terms {
    #[cycle(expr)]
    fn drop(mut self) {
        loop {
            match self {
                Terms::Nothing => return,
                Terms::More(_, _, rest) => match Arc::into_inner(rest) {
                    Some(next) => self = next,
                    None => return,
                },
            }
        }
    }
}

/// A list of at most three expressions.
#[derive(Debug, Drop)]
pub enum Exprs {
    Empty,
    One(Expr),
    Two(Expr, Expr),
    Three(Expr, Expr, Expr),
}

/// A list of variables, all of them different.
#[derive(Clone, Copy, Debug, PartialEq, Eq)]
pub enum Names {
    One(usize),
    Two(usize, usize),
    Three(usize, usize, usize),
}

/// How the two sides of a test are compared.
#[derive(Clone, Copy, Debug, PartialEq, Eq)]
pub enum Relation {
    Equal,
    Less,
}

#[derive(Debug, Drop)]
pub struct Test {
    pub left: Expr,
    pub relation: Relation,
    pub right: Expr,
}

/// An event. A wrap without names drops the result of its event.
#[derive(Debug, Drop)]
#[cycle(process)]
pub enum Event {
    Send(Name, Exprs),
    Recv(Name),
    Always(Exprs),
    Never,
    Cancelled(Name),
    /// The end of another process of the script, by its number.
    Joined(u8),
    Choose(Arc<Events>),
    Wrap(Arc<Event>, Option<Names>, Exprs),
    Guard(Arc<Block>, Arc<Event>),
    Nack(usize, Arc<Block>, Arc<Event>),
}

/// The members of a choice.
#[derive(Debug)]
#[cycle(process)]
pub enum Events {
    Nothing,
    More(Arc<Event>, Arc<Events>),
}

/// A statement. A sync without names drops its result.
#[derive(Debug, Drop)]
#[cycle(process)]
pub enum Stmt {
    Let(usize, Expr),
    Print(Expr),
    Sync(Option<Names>, Arc<Event>),
    If(Test, Arc<Block>, Arc<Block>),
    Loop(u32, Arc<LoopBody>),
    Forever(Arc<LoopBody>),
    End,
    /// Starts another process of the script, by its number, unless it was started before.
    Spawn(u8),
}

/// The statements between two braces.
#[derive(Debug)]
#[cycle(process)]
pub enum Block {
    Done,
    /// A statement, the line of its word (`let`, `sync` and so on), and what follows.
    Then(Stmt, u32, Arc<Block>),
}

/// The body of a loop: a sync, and the statements behind it.
#[derive(Debug, Drop)]
#[cycle(process)]
pub struct LoopBody {
    pub names: Option<Names>,
    pub event: Arc<Event>,
    pub rest: Arc<Block>,
    /// The line of the word `sync`.
    pub line: u32,
}

impl Drop for Events {
    #[cycle(process)]
    fn drop(mut self) {
        loop {
            match self {
                Events::Nothing => return,
                Events::More(_, rest) => match Arc::into_inner(rest) {
                    Some(next) => self = next,
                    None => return,
                },
            }
        }
    }
}

impl Drop for Block {
    #[cycle(process)]
    fn drop(mut self) {
        loop {
            match self {
                Block::Done => return,
                Block::Then(_, _, rest) => match Arc::into_inner(rest) {
                    Some(next) => self = next,
                    None => return,
                },
            }
        }
    }
}
