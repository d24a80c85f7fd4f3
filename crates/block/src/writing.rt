//! Facts that come and fall.
ghost use Rattle.std.specs.Prelude.{◌≡◌, if◌then◌else◌};
ghost use Rattle.block.specs.Reading.{state, Placed};
ghost use Rattle.block.specs.Writing.{adding, removing};

use crate::records::Records;
use model::Fact;

impl Records {
    /// The fact stands from now on, or no more.
    // `stands` is what is written, and no step to run.
    fn tell(&mut self, fact: Fact, stands: bool)
        requires { Placed fact }
        ensures { state self.new ≡ (if stands then adding fact (state self.old) else removing fact (state self.old)) }
    {
        let t = &mut self.tables;
        let r = &mut self.relations;
        match fact {
            Fact::Lives(i) => t.live.put(i as usize, stands),
            Fact::Held(s, role) => t.held.put(s as usize, role as usize, stands),
            Fact::Right(role, i, mode) => {
                t.rights[mode as usize].put(i as usize, role as usize, stands);
            }
            Fact::Access(s, i, mode) => {
                t.accesses[mode as usize].put(i as usize, s as usize, stands);
            }
            Fact::Holding(c, e) => t.contents.put(c as usize, e as usize, stands),
            Fact::Flow(a, b) => r.flows.put(a as usize, b as usize, stands),
            Fact::Control(s, u) => r.control.put(s as usize, u as usize, stands),
        }
    }

    /// The fact stands from now on.
    // `Placed` is no invariant of facts: those that are asked for may be of any numbers.
    pub fn add(&mut self, fact: Fact)
        requires { Placed fact }
        ensures { state self.new ≡ adding fact (state self.old) }
    {
        self.tell(fact, true);
    }

    /// The fact stands no more.
    pub fn remove(&mut self, fact: Fact)
        requires { Placed fact }
        ensures { state self.new ≡ removing fact (state self.old) }
    {
        self.tell(fact, false);
    }
}
