// One call of any kind, by the method for it, and the law of the run that it carries on.
ghost use Rattle.std.specs.Prelude.{◌≡◌};
ghost use Rattle.rules.specs.Step.{step, ranks_after};
ghost use Rattle.engine.specs.Answering.{left_with, state_of};
ghost use Rattle.engine.specs.Running.{LawGoesOn};

use super::opening::Engine;
use plant::Table;
use ranks::Rank;
use rules::{Answer, Call};

impl<T: Table> Engine<T> {
    // Makes the call. Every history that has led to this engine goes on with it, and has the law of a run.
    pub fn perform<K: Rank>(&mut self, ranks: &mut [K], call: Call<K>) -> Answer
        ensures value { left_with T.meaning self.new result ≡ step K.above (state_of T.meaning self.old) ranks.old call }
        ensures ranks { ranks.new ≡ ranks_after ranks.old call result }
        ensures law { LawGoesOn K.above (state_of T.meaning self.old) ranks.old call result (state_of T.meaning self.new) }
    {
        self.dispatch(ranks, call)
    }

    // The call is made, and its result is the rules' answer.
    fn dispatch<K: Rank>(&mut self, ranks: &mut [K], call: Call<K>) -> Answer
        ensures value { left_with T.meaning self.new result ≡ step K.above (state_of T.meaning self.old) ranks.old call }
        ensures ranks { ranks.new ≡ ranks_after ranks.old call result }
    {
        match call {
            Call::Begin(client, rank) => self.begin(ranks, client, rank).into(),
            Call::Lock(client, kind, element) => self.lock(ranks, client, kind, element).into(),
            Call::Read(client, element) => self.read(client, element).into(),
            Call::Change(client, element, written) => self.change(client, element, written).into(),
            Call::Commit(client) => self.commit(client).into(),
            Call::WriteBack(client) => self.write_back(client).into(),
            Call::End(client) => self.end(client).into(),
            Call::GiveUp(client) => self.give_up(client).into(),
            Call::Clear(client) => self.clear(client).into(),
            Call::Bind(pointer, element) => self.bind(pointer, element).into(),
            Call::Remove(pointer) => self.remove(pointer).into(),
            Call::HardRead(pointer) => self.hard_read(pointer).into(),
            Call::HardWrite(pointer, written) => self.hard_write(pointer, written).into(),
        }
    }
}
