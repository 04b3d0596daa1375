//! What a bank of links promises. A place that it does not have is an empty one.
ghost use Rattle.std.specs.Prelude.{◌≡◌, Bool, ◌&&◌, length, nat_le};
ghost use Rattle.std.specs.Result.{result_err};
ghost use Rattle.std.specs.List.{slice_get};
ghost use Rattle.std.specs.List.Sorted.{IsPermutation};
ghost use Rattle.container.specs.Queue.{entries};
ghost use Rattle.elementary.specs.Settings.{refused_unless};
ghost use Rattle.elementary.specs.declared.link.End.{End};
ghost use Rattle.rules.specs.Bank.{Places, SoundBank, sends, sent, reclaims, reclaimed, receives, received, release_faults, given_back, create_fault, Creates, detach_fault, detached, held_at, Turned, has_data, borrow_count, details_at, standing_at, mark_at, entries_at, settable, SetsMark};

use container::queue::Queue;
use elementary::error::{
    ConnectionError, SettingsError, ZeroCopyCreationError, ZeroCopyReceiveError,
    ZeroCopyReleaseError, ZeroCopySendError,
};
use elementary::link::{ChunkList, End, LinkDetails, Mark, Standing};
use elementary::pointer_offset::PointerOffset;

/// The most that a link can hold: 8 waiting, 8 borrowed, and 17 returned.
pub const MAX_HELD: usize = 33;

/// What can be asked of links, which changes nothing.
pub trait Links: Sized {
    ghost links: { Self → Places };

    fn number_of_places(&self) -> usize
        ensures { result ≡ length (links self.now) };

    /// None for an empty place.
    fn details(&self, place: usize) -> Option<LinkDetails>
        ensures { result ≡ details_at (links self.now) place };

    fn standing(&self, end: End, place: usize) -> Standing
        ensures { result ≡ standing_at end (links self.now) place };

    /// As it counts at a send.
    fn mark(&self, place: usize) -> Mark
        ensures { result ≡ mark_at (links self.now) place };

    fn number_of(&self, list: ChunkList, place: usize) -> usize
        ensures { result ≡ length (entries_at list (links self.now) place) };

    /// The entry so many after the oldest.
    fn entry(&self, list: ChunkList, place: usize, n: usize) -> Option<PointerOffset>
        ensures { result ≡ slice_get (entries_at list (links self.now) place) n };

    fn has_data(&self, place: usize) -> bool
        ensures { result ≡ has_data (links self.now) place };

    fn borrow_count(&self, place: usize) -> usize
        ensures { result ≡ borrow_count (links self.now) place };

    ghost sound: { (b : Self) → SoundBank (links b) };
}

/// What can be done with links. Every call but a turn changes one link at most.
pub trait Bank: Links {
    /// Whether marks and paces can be set.
    ghost rigged: { Bool };

    /// Attaches an end: at the link of its ports, or at any empty place.
    fn create(&mut self, end: End, details: LinkDetails) -> Result<usize, ZeroCopyCreationError>
        ensures fault { result_err result ≡ create_fault end (Self.links self.old) details }
        ensures after { Creates end (Self.links self.old) details result (Self.links self.new) };

    fn try_send(
        &mut self,
        place: usize,
        offset: PointerOffset,
    ) -> Result<Option<PointerOffset>, ZeroCopySendError>
        ensures value { result ≡ sends (Self.links self.old) place offset }
        ensures after { Self.links self.new ≡ sent (Self.links self.old) place offset };

    fn reclaim(&mut self, place: usize) -> Result<Option<PointerOffset>, ConnectionError>
        ensures value { result ≡ reclaims (Self.links self.old) place }
        ensures after { Self.links self.new ≡ reclaimed (Self.links self.old) place };

    fn receive(&mut self, place: usize) -> Result<Option<PointerOffset>, ZeroCopyReceiveError>
        ensures value { result ≡ receives (Self.links self.old) place }
        ensures after { Self.links self.new ≡ received (Self.links self.old) place };

    fn release(&mut self, place: usize, offset: PointerOffset) -> Result<(), ZeroCopyReleaseError>
        ensures fault { result_err result ≡ release_faults (Self.links self.old) place offset }
        ensures after { Self.links self.new ≡ given_back (Self.links self.old) place offset };

    /// Puts into `held` what the link holds for its sender, in any order, and nothing else.
    fn detach_sender(
        &mut self,
        place: usize,
        held: &mut Queue<PointerOffset, MAX_HELD>,
    ) -> Result<(), ConnectionError>
        ensures fault { result_err result ≡ detach_fault End.Sender (Self.links self.old) place }
        ensures after { Self.links self.new ≡ detached End.Sender (Self.links self.old) place }
        ensures out { IsPermutation (held_at (Self.links self.old) place) (entries held.new) };

    fn detach_receiver(&mut self, place: usize) -> Result<(), ConnectionError>
        ensures fault { result_err result ≡ detach_fault End.Receiver (Self.links self.old) place }
        ensures after { Self.links self.new ≡ detached End.Receiver (Self.links self.old) place };

    /// Time for the receivers: some list of their moves is made, on whichever links.
    fn turn(&mut self)
        ensures { Turned (Self.links self.old) (Self.links self.new) };

    fn set_mark(&mut self, place: usize, mark: Mark) -> Result<(), SettingsError>
        ensures fault { result_err result ≡ refused_unless (settable rigged (Self.links self.old) place) }
        ensures after { SetsMark rigged (Self.links self.old) place mark (Self.links self.new) };

    /// How many receive-and-release pairs a turn makes at most on the link at a place.
    fn set_pace(&mut self, place: usize, pace: usize) -> Result<(), SettingsError>
        ensures fault { result_err result ≡ refused_unless (settable rigged (Self.links self.old) place && nat_le pace 8) }
        ensures after { Self.links self.new ≡ Self.links self.old };
}
