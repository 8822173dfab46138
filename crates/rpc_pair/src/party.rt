// The two ends, as bytes pass them.
ghost use Rattle.std.specs.Prelude.{◌≡◌, ◌+◌, ◌++◌, ℕ, Bool, List, IfOk, length, take, drop, refl};
ghost use Rattle.std.proofs.Common.{ap, ◌∙◌};
ghost use Rattle.rpc_end.specs.Ends.{is_closed, out_count, taken_out};
ghost use Rattle.rpc_end.specs.Taking.{TakesSome};
ghost use Rattle.rpc_book.specs.Books.{with_connection};
ghost use Rattle.rpc_server.specs.Servers.{with_end};
ghost use Rattle.rpc_pair.specs.Feeds.{BookCloses, BookTakes, IsFedAs, ServerCloses, ServerTakes};
ghost use Rattle.rpc_pair.specs.Kept.{BookKeeps, keeps_along, keeps_same};
ghost use Rattle.rpc_pair.specs.Outputs.{out_twice};

use crate::labelled::LabelledBook;
use rpc_msg::FeedError;
use rpc_server::Server;

/// An end that takes bytes in feeds, and whose own bytes are taken out of it.
pub trait Party {
    /// Whether it is closed.
    ghost closed: { Self → Bool };

    /// It takes the first bytes of a piece, so many, at a moment.
    ghost takes: { ℕ → Self → List ℕ → ℕ → Self → Type 0 };

    /// A feed of the piece finds that it is closed, or closes it.
    ghost closes: { ℕ → Self → List ℕ → Self → Type 0 };

    /// The bytes that are to go out.
    ghost output: { Self → List ℕ };

    /// What it is once the oldest of them, so many, are out.
    ghost without: { Self → ℕ → Self };

    /// What stands of it whatever passes.
    ghost keeps: { Self → Self → Type 0 };

    /// Whether it is closed.
    fn is_closed(&self) -> bool
        ensures { result ≡ closed self.now };

    /// Takes bytes of a piece, and says how many.
    fn feed(&mut self, piece: &[u8], now: u64) -> Result<usize, FeedError>
        ensures took { IsFedAs (takes now self.old piece.now) (closes now self.old piece.now)
            result self.new }
        ensures some { IfOk result (TakesSome piece.now) }
        ensures keeps { keeps self.old self.new };

    /// Moves the oldest bytes that are to go out into a buffer, as many as it has room for.
    fn take_out(&mut self, into: &mut [u8]) -> usize
        ensures count { result ≡ out_count (length into.old) (output self.old) }
        ensures moved { into.new ≡ take result (output self.old) ++ drop result into.old }
        ensures left { self.new ≡ without self.old result }
        ensures keeps { keeps self.old self.new };

    /// All of it stands where nothing passes.
    ghost same: { (s : Self) → keeps s s };

    /// What stands goes on to.
    ghost along: { (a b c : Self) → keeps a b → keeps b c → keeps a c };

    /// Where nothing went out it is as it was.
    ghost none: { (s : Self) → without s 0 ≡ s };

    /// What is out is no more among what is to go out.
    ghost left: { (s : Self) (n : ℕ) → output (without s n) ≡ drop n (output s) };

    /// Bytes go out in one piece or in two.
    ghost both: { (s : Self) (n m : ℕ) → without (without s n) m ≡ without s (n + m) };
}

impl Party for Server {
    ghost closed = { λ s. is_closed s.link };

    ghost takes = { ServerTakes };

    ghost closes = { ServerCloses };

    ghost output = { λ s. s.link.output };

    ghost without = { λ s n. with_end s (taken_out s.link n) };

    ghost keeps = { λ s new. new.rules ≡ s.rules };

    ghost same = { λ s. refl };

    ghost along = { λ a b c one two. two ∙ one };

    ghost none = { λ s. refl };

    ghost left = { λ s n. refl };

    ghost both = { λ s n m. ap (with_end s) (out_twice s.link n m) };

    fn is_closed(&self) -> bool {
        self.cause().is_some()
    }

    fn feed(&mut self, piece: &[u8], now: u64) -> Result<usize, FeedError> {
        match Server::feed(self, piece, now) {
            Ok(fed) => Ok(fed.used),
            Err(error) => Err(error),
        }
    }

    fn take_out(&mut self, into: &mut [u8]) -> usize {
        Server::take_out(self, into)
    }
}

impl Party for LabelledBook {
    ghost closed = { λ b. is_closed b.link };

    ghost takes = { BookTakes };

    ghost closes = { BookCloses };

    ghost output = { λ b. b.link.output };

    ghost without = { λ b n. with_connection b (taken_out b.link n) };

    ghost keeps = { BookKeeps };

    ghost same = { keeps_same };

    ghost along = { keeps_along };

    ghost none = { λ b. refl };

    ghost left = { λ b n. refl };

    ghost both = { λ b n m. ap (with_connection b) (out_twice b.link n m) };

    fn is_closed(&self) -> bool {
        LabelledBook::is_closed(self)
    }

    fn feed(&mut self, piece: &[u8], now: u64) -> Result<usize, FeedError> {
        LabelledBook::feed(self, piece, now)
    }

    fn take_out(&mut self, into: &mut [u8]) -> usize {
        LabelledBook::take_out(self, into)
    }
}
