//! A disk with three areas, and what a crash may leave of it.

ghost use Rattle.std.specs.Prelude.{◌≡◌, ◌+◌, ◌<◌, ◌≤◌, ⊤, ℕ, Bool, length, take, drop, Option, Some, is_ok, IfOk, OnOk, OnErr, IfSome};
ghost use Rattle.rls_io.specs.Calls.{Answer, done, gave, told};
ghost use Rattle.rls_journal.specs.Areas.{Areas, area_of};
ghost use Rattle.rls_journal.specs.Calls.{DiskCall, Size, Read, Write, Renew, Sync};
ghost use Rattle.rls_journal.specs.Disk.{CountsFaults, Tears, Renews, Writes, MayTear, Narrows, Follows, IsDurable, IsWritten, StaysDirty, StaysDirtyBut, Elapses};
ghost use Rattle.rls_journal.specs.Memory.{DeviceCall, Looked, Wrote, Synced};

use rls_io::Failed;

/// The area of the gate.
pub const GATE: u8 = 2;

/// A disk with three areas of bytes: 0 and 1 are the slots, 2 is the gate.
///
/// A crash at a moment leaves one of several images of the areas. Between two syncs of an area each range that was written,
/// and the part past the old end, may hold any bytes, and the size may be any from the old end to the new one; other bytes
/// stay. After a sync that succeeds a crash leaves what a read gives of the bytes that were dirty, as each is from a write to
/// the next sync that fails. A disk on which all bytes are dirty at all times *retries*: after a sync that succeeds a crash
/// leaves all that a read gives, whatever failed before. Linux doesn't retry: a sync that failed has its pages taken for
/// written, so that what it didn't write stays so until it is written again. This is known where the disk tells its content;
/// a disk that doesn't lets a crash leave anything.
pub trait Disk {
    /// A sync writes what one that failed hasn't written, so that nothing need be written again.
    ghost retries: { Type 0 };

    /// What reads give, if the disk tells it.
    ghost seen: { Self → Option Areas };

    /// What a crash now may leave.
    ghost may_leave: { Self → Areas → Type 0 };

    /// The next sync of this area, if it succeeds, writes what is read of it from this place on, so many bytes.
    ghost is_dirty: { Self → ℕ → ℕ → ℕ → Type 0 };

    /// The moment, as a number that never falls.
    ghost moment: { Self → ℕ };

    /// What a crash at some moment from that one on might have left, during a call or between two.
    ghost left_since: { Self → ℕ → Areas → Type 0 };

    /// How many of its calls have failed, up to the greatest u64. A call that fails raises it by one, and no other call
    /// changes it.
    ghost faults: { Self → ℕ };

    /// What this call makes of the disk, if it answers Ok or if it doesn't.
    ghost gives: { Self → DeviceCall → Bool → Self → Type 0 } = { λ _ _ _ _. ⊤ };

    /// The same in full: what this call, with its place and its bytes, makes of the disk if it answers so.
    ghost answers: { Self → DiskCall → Answer → Self → Type 0 } = { λ _ _ _ _. ⊤ };

    /// The count of bytes in an area, which is below 3. `Failed` comes only where the count of faults rose in this call.
    fn size(&mut self, area: u8) -> Result<u64, Failed>
        requires area { area < 3 }
        ensures size { IfOk result (λ n. IfSome (seen self.old) (λ s. n ≡ length (area_of s area))) }
        ensures same { seen self.new ≡ seen self.old }
        ensures dirty { StaysDirty (is_dirty self.old) (is_dirty self.new) }
        ensures crash { Narrows (may_leave self.old) (may_leave self.new) }
        ensures time { Elapses (moment self.old) (moment self.new) (left_since self.old) (left_since self.new) (may_leave self.new) }
        ensures gives { gives self.old Looked (is_ok result) self.new }
        ensures answers { answers self.old (Size area) (told result) self.new }
        ensures counted { CountsFaults result (faults self.old) (faults self.new) };

    /// Fills `buf` with the bytes of an area from `at` on. All of them lie within the area. After `Failed`, which comes only
    /// where the count of faults rose in this call, `buf` may hold any bytes.
    fn read(&mut self, area: u8, at: u64, buf: &mut [u8]) -> Result<(), Failed>
        requires area { area < 3 }
        requires within { IfSome (seen self.old) (λ s. at + length buf.old ≤ length (area_of s area)) }
        ensures bytes { OnOk result (IfSome (seen self.old) (λ s. buf.new ≡ take (length buf.old) (drop at (area_of s area)))) }
        ensures same { seen self.new ≡ seen self.old }
        ensures dirty { StaysDirty (is_dirty self.old) (is_dirty self.new) }
        ensures crash { Narrows (may_leave self.old) (may_leave self.new) }
        ensures time { Elapses (moment self.old) (moment self.new) (left_since self.old) (left_since self.new) (may_leave self.new) }
        ensures gives { gives self.old Looked (is_ok result) self.new }
        ensures answers { answers self.old (Read area at (length buf.old)) (gave result buf.new) self.new }
        ensures counted { CountsFaults result (faults self.old) (faults self.new) };

    /// Writes over the bytes of an area from `at` on, which is at most its size, and past its end. No bytes change nothing.
    /// After `Failed`, which comes only where the count of faults rose in this call, the range and the part past the old end
    /// may hold any bytes. So may they after a crash, until a sync.
    fn write(&mut self, area: u8, at: u64, bytes: &[u8]) -> Result<(), Failed>
        requires area { area < 3 }
        requires within { IfSome (seen self.old) (λ s. at ≤ length (area_of s area)) }
        ensures written { OnOk result (Writes area at bytes.now (seen self.old) (seen self.new)) }
        ensures torn { OnErr result (MayTear area at (length bytes.now) (seen self.old) (seen self.new)) }
        ensures dirty { StaysDirty (is_dirty self.old) (is_dirty self.new) }
        ensures is_dirty { OnOk result (is_dirty self.new area at (length bytes.now)) }
        ensures crash { Follows (Tears area at (length bytes.now)) (may_leave self.old) (may_leave self.new) }
        ensures time { Elapses (moment self.old) (moment self.new) (left_since self.old) (left_since self.new) (may_leave self.new) }
        ensures gives { gives self.old (Wrote area at bytes.now) (is_ok result) self.new }
        ensures answers { answers self.old (Write area at bytes.now) (done result) self.new }
        ensures counted { CountsFaults result (faults self.old) (faults self.new) };

    /// Makes the first byte of the gate dirty, with the value that it has; there is one. Where the disk has this value, a crash
    /// leaves it, whether the call fails or not; elsewhere the byte may hold anything after a crash, until a sync. A disk that
    /// retries need do nothing, and changes nothing. `Failed` comes only where the count of faults rose in this call.
    fn renew_gate(&mut self) -> Result<(), Failed>
        requires some { IfSome (seen self.old) (λ s. 0 < length s.gate) }
        ensures same { seen self.new ≡ seen self.old }
        ensures dirty { StaysDirty (is_dirty self.old) (is_dirty self.new) }
        ensures is_dirty { OnOk result (is_dirty self.new 2 0 1) }
        ensures crash { IfSome (seen self.old) (λ s. Follows (Renews s) (may_leave self.old) (may_leave self.new)) }
        ensures idle { retries → Narrows (may_leave self.old) (may_leave self.new) }
        ensures time { Elapses (moment self.old) (moment self.new) (left_since self.old) (left_since self.new) (may_leave self.new) }
        ensures gives { gives self.old Looked (is_ok result) self.new }
        ensures answers { answers self.old Renew (done result) self.new }
        ensures counted { CountsFaults result (faults self.old) (faults self.new) };

    /// After an Ok, a crash leaves what reads give of the bytes of this area that were dirty, or of the whole area where the
    /// disk retries, and no longer an area than the one that is read. After `Failed`, which comes only where the count of
    /// faults rose in this call, what was dirty in this area may not be so any longer.
    fn sync(&mut self, area: u8) -> Result<(), Failed>
        requires area { area < 3 }
        ensures durable { OnOk result (retries → IfSome (seen self.old) (λ s. IsDurable area s (may_leave self.new))) }
        ensures written { OnOk result (IfSome (seen self.old) (λ s. IsWritten area (is_dirty self.old) s (may_leave self.new))) }
        ensures dirty { StaysDirtyBut area (is_dirty self.old) (is_dirty self.new) }
        ensures same { seen self.new ≡ seen self.old }
        ensures crash { Narrows (may_leave self.old) (may_leave self.new) }
        ensures time { Elapses (moment self.old) (moment self.new) (left_since self.old) (left_since self.new) (may_leave self.new) }
        ensures gives { gives self.old (Synced area) (is_ok result) self.new }
        ensures answers { answers self.old (Sync area) (done result) self.new }
        ensures counted { CountsFaults result (faults self.old) (faults self.new) };

    /// The disk as it reads is one of the images that a crash now may leave.
    ghost reads_now: { (disk : Self) (s : Areas) → seen disk ≡ Some s → may_leave disk s };

    /// This moment is one of those since an earlier one.
    ghost counts_now: { (disk : Self) (t : ℕ) (c : Areas) → t ≤ moment disk → may_leave disk c → left_since disk t c };

    /// Since this moment there is no other.
    ghost only_now: { (disk : Self) (c : Areas) → left_since disk (moment disk) c → may_leave disk c };
}
