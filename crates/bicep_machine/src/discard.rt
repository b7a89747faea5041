// How parts are dropped where reading stops.

use crate::frame::{Assigned, Callee, Frame, Front, Header};
use crate::kept::Kept;
use crate::state::State;
use arm_value::Text;
use bicep_tree::{
    Body, Decorator, Expr, Function, Label, Literal, LoopNames, Member, Name, Object, Statement,
    Terminal, Value,
};

/// What a reader drops where it stops.
///
/// Each type has its impl here, so that a crate above that drops a part derives no drop of trees and frames.
pub trait Discard {
    /// Drops the part.
    fn discard(self);
}

// Drops the part. A part of a known type that ended in its own function would be dropped there field by field.
fn let_go<T: Drop>(_part: T) {}

impl<T: Discard> Discard for Option<T> {
    fn discard(self) {
        match self {
            None => (),
            Some(part) => part.discard(),
        }
    }
}

impl<A: Discard, B: Discard> Discard for (A, B) {
    fn discard(self) {
        let (first, second) = self;
        first.discard();
        second.discard();
    }
}

impl<A: Discard, B: Discard, C: Discard> Discard for (A, B, C) {
    fn discard(self) {
        let (first, second, third) = self;
        first.discard();
        second.discard();
        third.discard();
    }
}

impl Discard for Text {
    fn discard(self) {
        let_go(self)
    }
}

impl Discard for Name {
    fn discard(self) {
        let_go(self)
    }
}

impl Discard for LoopNames {
    fn discard(self) {
        let_go(self)
    }
}

impl Discard for Label {
    fn discard(self) {
        let_go(self)
    }
}

impl Discard for Literal {
    fn discard(self) {
        let_go(self)
    }
}

impl Discard for Function {
    fn discard(self) {
        let_go(self)
    }
}

impl Discard for Terminal {
    fn discard(self) {
        let_go(self)
    }
}

impl Discard for Expr {
    fn discard(self) {
        let_go(self)
    }
}

impl Discard for Vec<Expr> {
    fn discard(self) {
        let_go(self)
    }
}

impl Discard for Kept<Box<Expr>> {
    fn discard(self) {
        let_go(self)
    }
}

impl Discard for Kept<Member> {
    fn discard(self) {
        let_go(self)
    }
}

impl Discard for Kept<Value> {
    fn discard(self) {
        let_go(self)
    }
}

impl Discard for Kept<Object> {
    fn discard(self) {
        let_go(self)
    }
}

impl Discard for Kept<Body> {
    fn discard(self) {
        let_go(self)
    }
}

impl Discard for Kept<Vec<Decorator>> {
    fn discard(self) {
        let_go(self)
    }
}

impl Discard for Kept<Statement> {
    fn discard(self) {
        let_go(self)
    }
}

impl Discard for Kept<Vec<Statement>> {
    fn discard(self) {
        let_go(self)
    }
}

impl Discard for Box<Header> {
    fn discard(self) {
        let_go(self)
    }
}

impl Discard for Front {
    fn discard(self) {
        let_go(self)
    }
}

impl Discard for Callee {
    fn discard(self) {
        let_go(self)
    }
}

impl Discard for Assigned {
    fn discard(self) {
        let_go(self)
    }
}

impl Discard for Frame {
    fn discard(self) {
        let_go(self)
    }
}

impl Discard for Vec<Frame> {
    fn discard(self) {
        let_go(self)
    }
}

impl Discard for State {
    fn discard(self) {
        let_go(self)
    }
}
