//! The operations of a log that a vector doesn't cover.
//! Why: CHOICES.md, 48.

ghost use Rattle.std.specs.Prelude.{◌≡◌, ◌-◌, ◌^◌, ◌≤◌, ◌++◌, [], min, length, take, sum_by, All, IfOk, OnOk};
ghost use Rattle.std.specs.List.{flat_map};
ghost use Rattle.rls_ops.specs.Rows.{missing_for};
ghost use Rattle.rls_ops.specs.Sizes.{op_size, front_within};
ghost use Rattle.rls_ops.specs.Spelling.{op_bytes};

use crate::log::Log;
use rls_ident::Vector;
use rls_ops::Ops;
use std::alloc::AllocError;

impl Log {
    /// The operations that a vector doesn't cover, in order: as many of the first ones as have at most this many bytes together.
    pub fn missing_for(&self, vector: &Vector, limit: u64) -> Result<Ops, AllocError>
        ensures missing { IfOk result (λ ops. ops ≡ front_within 0 limit (missing_for vector.now self.now)) }
    {
        let end = self.reach(vector, limit);
        let ops = self.missing_before(vector, end)?;
        Ok(ops)
    }

    // Those of the first `n` operations that a vector doesn't cover.
    fn missing_before(&self, vector: &Vector, n: usize) -> Result<Ops, AllocError>
        requires within { n ≤ length self.now }
        ensures missing { IfOk result (λ ops. ops ≡ missing_for vector.now (take n self.now)) }
    {
        let mut ops = Ops::new(*self.bytes.allocator());
        let start = self.missing_start(vector, n);
        for i in start..n {
            if self.head(i).is_covered(vector) {
                continue;
            }
            ops.push(self.op(i)?)?;
        }
        Ok(ops)
    }

    // A place up to this one before which the vector covers each operation. It is found from the end of the log: where no author's number
    // fell, as far back as operations are missing.
    fn missing_start(&self, vector: &Vector, n: usize) -> usize
        requires within { n ≤ length self.now }
        ensures within { result ≤ n }
        ensures covered { missing_for vector.now (take result self.now) ≡ [] }
    {
        let mut left = self.uncovered(vector);
        if left >= self.len() {
            return 0;
        }
        let mut start = self.len();
        while left.min(start) > 0 {
            start -= 1;
            if self.head(start).is_covered(vector) {
                continue;
            }
            left -= 1;
        }
        start.min(n)
    }

    // How many operations the vector doesn't cover, at most.
    fn uncovered(&self, vector: &Vector) -> usize
        ensures bound { length (missing_for vector.now self.now) ≤ result }
    {
        self.latest.uncovered(vector, self.entries.len())
    }

    /// How many of the first operations have together, of those that a vector doesn't cover, at most this many bytes.
    pub fn reach(&self, vector: &Vector, limit: u64) -> usize
        ensures within { result ≤ length self.now }
        ensures reach { missing_for vector.now (take result self.now) ≡ front_within 0 limit (missing_for vector.now self.now) }
    {
        let mut used = 0;
        let len = self.len();
        let start = self.missing_start(vector, len);
        for i in start..len {
            if self.head(i).is_covered(vector) {
                continue;
            }
            let size = self.part(i).len() as u64;
            if size > limit - used {
                return i;
            }
            used += size;
        }
        len
    }

    /// How many of the first `n` operations a vector doesn't cover.
    pub fn missing_count(&self, vector: &Vector, n: usize) -> usize
        requires within { n ≤ length self.now }
        ensures count { result ≡ length (missing_for vector.now (take n self.now)) }
    {
        let mut count: usize = 0;
        let start = self.missing_start(vector, n);
        for i in start..n {
            if self.head(i).is_covered(vector) {
                continue;
            }
            count += 1;
        }
        count
    }

    /// How many bytes the operations have that a vector doesn't cover, or the greatest u64 where they are more.
    pub fn missing_len(&self, vector: &Vector) -> u64
        ensures size { result ≡ min (sum_by op_size (missing_for vector.now self.now)) (2 ^ 64 - 1) }
    {
        let mut total: u64 = 0;
        let len = self.len();
        let start = self.missing_start(vector, len);
        for i in start..len {
            if self.head(i).is_covered(vector) {
                continue;
            }
            total = total.saturating_add(self.part(i).len() as u64);
        }
        total
    }

    /// How many bytes the first `n` operations have, or all of them if they are fewer; the greatest u64 where they are more.
    pub fn first_len(&self, n: u64) -> u64
        ensures size { result ≡ min (sum_by op_size (take n self.now)) (2 ^ 64 - 1) }
    {
        let mut total: u64 = 0;
        for i in 0..self.len() {
            if i as u64 >= n {
                break;
            }
            total = total.saturating_add(self.part(i).len() as u64);
        }
        total
    }

    /// Appends the bytes of those of the first `n` operations that a vector doesn't cover. After an error some of them may stand there.
    pub fn put_missing(
        &self,
        out: &mut Vec<u8>,
        vector: &Vector,
        n: usize,
    ) -> Result<(), AllocError>
        requires within { n ≤ length self.now }
        ensures ok { OnOk result (out.new.items ≡ out.old.items ++ flat_map op_bytes (missing_for vector.now (take n self.now))) }
    {
        let start = self.missing_start(vector, n);
        for i in start..n {
            if self.head(i).is_covered(vector) {
                continue;
            }
            out.extend_from_slice(self.part(i))?;
        }
        Ok(())
    }
}
