// What the operations at one window share: a change of condition, whether the line is dropped, what they ask first, and
// the answer with the window that it leaves.
ghost use Rattle.std.specs.Prelude.{◌≡◌};
ghost use Rattle.rules.specs.Window.{is_suspended, other_term};
ghost use Rattle.window.specs.View.{view_of};
ghost use Rattle.window.specs.Promise.{number_of, turned};
ghost use Rattle.window.specs.Admission.{admitted};

use crate::{Answer, Condition, Head, Refusal, Turned, Window};
use rules::Term;

impl Head {
    // The head with another condition.
    pub fn with_condition(self, condition: Condition) -> Head
        ensures { result ≡ record {
          term = self.term;
          acked = self.acked;
          sent = self.sent;
          busy = self.busy;
          batches = self.batches;
          condition = condition;
        } }
    {
        Head { condition, ..self }
    }
}

impl Window {
    // Whether the line is dropped.
    #[tactic(auto, unfolding(crate::specs::View::view_of))]
    pub fn is_suspended(self) -> bool
        ensures { result ≡ is_suspended (view_of self).condition }
    {
        self.head.condition == Condition::Suspended
    }

    // Whether a term is another than this window's.
    #[tactic(auto, unfolding(crate::specs::View::view_of))]
    fn has_other_term(self, term: Term) -> bool
        ensures { result ≡ other_term term (view_of self) }
    {
        term != self.head.term
    }

    // What Catch, Written and Ack ask first: 1 where a length does not fit; 3; 5.
    pub fn admits(self, term: Term) -> Answer
        ensures { number_of result ≡ admitted term (view_of self) }
    {
        if !self.fits() {
            return Err(Refusal::OutOfShape);
        }
        if self.is_suspended() {
            return Err(Refusal::Suspended);
        }
        if self.has_other_term(term) {
            return Err(Refusal::OtherTerm);
        }
        Ok(())
    }

    // The answer of an operation that gives the next window or a refusal, and the window as it then is: a refusal leaves
    // this one.
    pub fn turned(self, next: Result<Window, Refusal>) -> Turned
        ensures { result ≡ turned self next }
    {
        match next {
            Ok(window) => Turned {
                window,
                answer: Ok(()),
            },
            Err(refusal) => Turned {
                window: self,
                answer: Err(refusal),
            },
        }
    }
}
