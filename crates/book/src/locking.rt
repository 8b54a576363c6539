// What a request for a lock meets in the book: who stands in its way, and who is thrown out.
ghost use Rattle.std.specs.Prelude.{◌≡◌, ℕ, Bool, ◌&&◌};
ghost use Rattle.ranks.specs.Standing.{stands_above};
ghost use Rattle.ranks.specs.declared.Client.{Client};
ghost use Rattle.rules.specs.Scans.{some_below};
ghost use Rattle.rules.specs.State.{is_committing};
ghost use Rattle.rules.specs.Locking.{covers, leave as leaving};
ghost use Rattle.rules.specs.declared.ClientState.TheVariants.{ThrownOut};
ghost use Rattle.inner.specs.Slots.{lock_in};
ghost use Rattle.inner.specs.Whole.{client_of};
ghost use Rattle.book.specs.Model.{Becomes};
ghost use Rattle.book.specs.Requests.{blocks, finds_room};

use super::keeping::Book;
use super::requests::Request;
use inner::Turn;
use ranks::{Client, Rank, stands_above};
use rules::{ClientState, Lock, LockKind};

impl Book {
    // Whether the client's own lock covers its request.
    pub fn is_covered(&self, request: Request) -> bool
        ensures { result ≡ covers (lock_in (client_of self.now.inner request.client.0).slots request.element.0) request.kind }
    {
        is_covered(self.lock_of(request.client, request.element), request.kind)
    }

    // Whether the client holds the element already, or has room for one lock more.
    pub fn finds_room(&self, request: Request) -> bool
        ensures { result ≡ finds_room self.now.inner request }
    {
        let held = self.lock_of(request.client, request.element);
        held.is_some() || self.has_room(request.client)
    }

    // Whether another client stands in the way of a request.
    fn is_blocked_by(&self, request: Request, other: Client) -> bool
        ensures { result ≡ blocks self.now.inner request other.0 }
    {
        let held = self.lock_of(other, request.element);
        let marked = self.is_marked(request.element);
        other != request.client
            && held.is_some_and(|lock| {
                request.kind == LockKind::Write || lock.kind == LockKind::Write || marked
            })
    }

    // Whether a client that stands in the way of a request passes a test.
    fn some_blocker<F: Fn(Client) -> bool>(&self, request: Request, passes: F) -> bool
        requires { F.IsAlwaysCallable passes }
        ensures { (test : ℕ → Bool) → ((d : Client) (b : Bool) → F.post passes d b → b ≡ test d.0) → result ≡ some_below 16 (λ d. blocks self.now.inner request d && test d) }
    {
        (0..16).map(Client).any(|other| self.is_blocked_by(request, other) && passes(other))
    }

    // Whether a client that stands in the way of a request also stands above.
    pub fn is_lost<K: Rank>(&self, ranks: &[K], request: Request) -> bool
        ensures { result ≡ some_below 16 (λ d. blocks self.now.inner request d && stands_above K.above ranks.now d request.client.0) }
    {
        self.some_blocker(request, |other| stands_above(ranks, other, request.client))
    }

    // Whether a client that stands in the way of a request is committing.
    pub fn must_wait(&self, request: Request) -> bool
        ensures { result ≡ some_below 16 (λ d. blocks self.now.inner request d && is_committing (client_of self.now.inner d).state) }
    {
        self.some_blocker(
            request,
            |other| self.state_of(other) == ClientState::Committing,
        )
    }

    // All clients that stand in the way of a request are thrown out.
    pub fn throw_out(&mut self, request: Request)
        ensures { Becomes self.old.inner self.new.inner (leaving (λ d. blocks self.old.inner request d) ThrownOut) }
    {
        for client in (0..16).map(Client) {
            if self.is_blocked_by(request, client) {
                self.leave(Turn {
                    client,
                    after: ClientState::ThrownOut,
                });
            }
        }
    }
}

// Whether a lock that is held covers one that is asked for.
pub fn is_covered(held: Option<Lock>, asked: LockKind) -> bool
    ensures { result ≡ covers held asked }
{
    held.is_some_and(|lock| asked == LockKind::Read || lock.kind == LockKind::Write)
}
