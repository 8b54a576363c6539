// The scaling run, by its handles.
ghost use Rattle.std.specs.Prelude.{◌≡◌, ℕ, ◌-◌, ◌^◌, ◌<◌, min, length, pos};
ghost use Rattle.rules.specs.State.{State};
ghost use Rattle.rules.specs.Calls.{lock_call, end_call};
ghost use Rattle.engine.specs.Answering.{state_of};
ghost use Rattle.scaling.specs.Run.{Ended, is_scalable, scaled, stop_of, stop_from, goes_on, scale_pair, scale_pairs, after_pairs, write_backs, finish, through, leaving_call, scaling_run, ended_with, ran_with};

use super::handles::{Committing, Handle, Kept, Open, Spent};
use super::run::{Pair, Ratio, Stop, Stopped};
use engine::{Engine, Locking};
use plant::{Element, Refusal, Table};
use ranks::{Client, Rank};
use rules::LockKind;

impl Ratio {
    fn is_scalable(self, pairs: &[Pair]) -> bool
        ensures { result ≡ is_scalable self pairs.now }
    {
        (1..=10_000).contains(&self.first)
            && (1..=10_000).contains(&self.second)
            && (1..=16).contains(&pairs.len())
    }

    // A scaled number that no i64 holds lies above every table's limits, as the largest i64 does.
    fn scaled(self, base: u64) -> i64
        requires { 0 < self.second }
        ensures { result ≡ pos (min (scaled self base) (2 ^ 63 - 1)) }
    {
        let second = u128::from(self.second);
        let doubled = 2 * u128::from(base) * u128::from(self.first) + second;
        i64::try_from(doubled / (2 * second)).unwrap_or(i64::MAX)
    }
}

// A client that stops leaves its transaction: thrown out it clears, else it gives up.
fn leave<T: Table>(engine: &mut Engine<T>, client: Client)
    ensures { state_of T.meaning engine.new ≡ (leaving_call ((state_of T.meaning engine.old).clients client.0) (state_of T.meaning engine.old) client.0).state }
{
    if engine.give_up(client) == Err(Refusal::ThrownOut) {
        let _ = engine.clear(client);
    }
}

impl Open {
    // A lock that has to be granted.
    fn take<T: Table, K: Rank>(
        &self,
        engine: &mut Engine<T>,
        ranks: &[K],
        kind: LockKind,
        element: Element,
    ) -> Result<(), Stop>
        ensures state { state_of T.meaning engine.new ≡ (lock_call K.above ranks.now (state_of T.meaning engine.old) self.now.client.0 kind element.0).state }
        ensures stop { stop_from result ≡ stop_of (lock_call K.above ranks.now (state_of T.meaning engine.old) self.now.client.0 kind element.0).answer }
    {
        match self.lock(engine, ranks, kind, element)? {
            Locking::Granted => Ok(()),
            Locking::Wait => Err(Stop::Wait),
            Locking::Lost => Err(Stop::Lost),
        }
    }

    // One pair: the base is locked for reading, the target for writing, the base is read, the target changed.
    fn scale_pair<T: Table, K: Rank>(
        &self,
        engine: &mut Engine<T>,
        ranks: &[K],
        ratio: Ratio,
        pair: Pair,
    ) -> Result<(), Stop>
        requires { 0 < ratio.second }
        ensures { (number : ℕ) (rest : State → Ended) → scale_pair K.above ranks.now self.now.client.0 ratio number pair (state_of T.meaning engine.old) rest ≡ goes_on (stop_from result) self.now.client.0 number (state_of T.meaning engine.new) rest }
    {
        self.take(engine, ranks, LockKind::Read, pair.base)?;
        self.take(engine, ranks, LockKind::Write, pair.target)?;
        let base = self.read(engine, pair.base)?;
        let base = u64::try_from(base).map_err(|_negative| Stop::Refused(Refusal::NotScalable))?;
        // No table's highest number is beyond 10^12, so that what no i64 holds lies outside the limits too.
        let _highest = engine.highest();
        self.change(engine, pair.target, ratio.scaled(base))?;
        Ok(())
    }

    // The pairs in their order.
    fn scale_pairs<T: Table, K: Rank>(
        &self,
        engine: &mut Engine<T>,
        ranks: &[K],
        ratio: Ratio,
        pairs: &[Pair],
    ) -> Result<(), Stopped>
        requires { 0 < ratio.second }
        ensures { scale_pairs K.above ranks.now self.now.client.0 ratio 0 pairs.now (state_of T.meaning engine.old) ≡ after_pairs result self.now.client.0 (length pairs.now) (state_of T.meaning engine.new) }
    {
        for (behind, pair) in pairs.iter().enumerate() {
            if let Err(why) = self.scale_pair(engine, ranks, ratio, *pair) {
                return Err(Stopped {
                    pair: behind + 1,
                    why,
                });
            }
        }
        Ok(())
    }

    // The commit, the write backs, the end. The handle is spent however they come out.
    fn commit_and_end<T: Table>(self, engine: &mut Engine<T>, pairs: usize) -> Result<(), Stop>
        ensures { finish self.client.0 pairs (state_of T.meaning engine.old) ≡ goes_on (stop_from result) self.client.0 pairs (state_of T.meaning engine.new) through }
    {
        match self.commit(engine) {
            Ok(committing) => {
                committing.write_back_all(engine, pairs);
                committing.end_anyway(engine)
            }
            Err(Kept { handle, refusal }) => {
                handle.spend();
                Err(Stop::Refused(refusal))
            }
        }
    }
}

impl Committing {
    // What was changed goes back. No more elements were changed than there are pairs.
    fn write_back_all<T: Table>(&self, engine: &mut Engine<T>, pairs: usize)
        ensures { state_of T.meaning engine.new ≡ write_backs pairs self.now.client.0 (state_of T.meaning engine.old) }
    {
        for _ in 0..pairs {
            let _ = self.write_back(engine);
        }
    }

    // The end. No run has it refused; the handle is spent all the same.
    fn end_anyway<T: Table>(self, engine: &mut Engine<T>) -> Result<(), Stop>
        ensures state { state_of T.meaning engine.new ≡ (end_call (state_of T.meaning engine.old) self.client.0).state }
        ensures stop { stop_from result ≡ stop_of (end_call (state_of T.meaning engine.old) self.client.0).answer }
    {
        match self.end(engine) {
            Ok(Spent::Done) => Ok(()),
            Ok(Spent::NotOpen) => Err(Stop::Refused(Refusal::NotOpen)),
            Err(Kept { handle, refusal }) => {
                handle.spend();
                Err(Stop::Refused(refusal))
            }
        }
    }
}

// The run of a client that has begun.
fn run_begun<T: Table, K: Rank>(
    opened: Open,
    engine: &mut Engine<T>,
    ranks: &[K],
    ratio: Ratio,
    pairs: &[Pair],
) -> Result<(), Stopped>
    requires { 0 < ratio.second }
    ensures { ended_with T.meaning engine.new result ≡ scale_pairs K.above ranks.now opened.client.0 ratio 0 pairs.now (state_of T.meaning engine.old) }
{
    let client = opened.client();
    if let Err(stopped) = opened.scale_pairs(engine, ranks, ratio, pairs) {
        opened.spend();
        leave(engine, client);
        return Err(stopped);
    }
    let pair = pairs.len();
    if let Err(why) = opened.commit_and_end(engine, pair) {
        leave(engine, client);
        return Err(Stopped { pair, why });
    }
    Ok(())
}

// A client scales each target by its base, in one transaction that it ends in any case.
pub fn scale<T: Table, K: Rank>(
    engine: &mut Engine<T>,
    ranks: &mut [K],
    client: Client,
    rank: K,
    ratio: Ratio,
    pairs: &[Pair],
) -> Result<(), Stopped>
    ensures { ran_with T.meaning engine.new ranks.new result ≡ scaling_run K.above (state_of T.meaning engine.old) ranks.old client.0 rank ratio pairs.now }
{
    if !ratio.is_scalable(pairs) {
        return Err(Stopped {
            pair: 0,
            why: Stop::Refused(Refusal::NotScalable),
        });
    }
    match Open::begin(engine, ranks, client, rank) {
        Ok(open) => run_begun(open, engine, ranks, ratio, pairs),
        Err(refusal) => Err(Stopped {
            pair: 0,
            why: Stop::Refused(refusal),
        }),
    }
}
