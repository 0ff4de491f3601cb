//! Images that are known. A member that was away has made one deletion after another in an early epoch, and mostly of former
//! identifiers. So a run of these that is one run in another epoch, too, is kept with that run. Then the image of any part of it is
//! found without a step.
//! Why: CHOICES.md, 95.

ghost use Rattle.std.specs.Prelude.{◌≡◌, ◌+◌, ◌<◌, ◌≤◌, ◌^◌, ◌++◌, [], length, map, pos, IfOk, IfSome, IsTrue};
ghost use Rattle.rls_ident.specs.Identifiers.{shifted};
ghost use Rattle.rls_rename.specs.Tree.{translate, AreNodes};
ghost use Rattle.rls_runs.specs.Runs.{run_idents, is_increasing};
ghost use Rattle.rls_epoch.specs.KnownRuns.{IsKnown, AreKnown};
ghost use Rattle.rls_epoch.specs.Seen.{nodes_of};

use crate::climb::compare_names;
use crate::placed::Placed;
use rls_ident::{EpochName, Ident, rely};
use rls_runs::{Run, Runs};
use std::alloc::{AllocError, Global};
use std::cmp::Ordering;

// The most runs that are known at once.
const MOST_KNOWN: usize = 8192;

// A run of an epoch, and the run of the same identifiers in another one.
#[derive(Drop)]
pub(crate) struct Known {
    pub(crate) from: EpochName,
    pub(crate) to: EpochName,
    pub(crate) run: Run,
    pub(crate) image: Run,
}

impl Known {
    // A run in its own epoch.
    pub(crate) fn unmoved(nodes: &[Placed], epoch: EpochName, run: Run) -> Result<Known, AllocError>
        requires nodes { AreNodes (nodes_of nodes.now) }
        ensures known { IfOk result (λ k. IsKnown (nodes_of nodes.now) k) }
    {
        rely!(let _len = run.len());
        let image = run.copy()?;
        Ok(Known {
            from: epoch,
            to: epoch,
            run,
            image,
        })
    }

    // The same again.
    pub(crate) fn copy(&self) -> Result<Known, AllocError>
        ensures copy { IfOk result (λ copy. copy ≡ self.now) }
    {
        Ok(Known {
            from: self.from,
            to: self.to,
            run: self.run.copy()?,
            image: self.image.copy()?,
        })
    }

    // The way back: the run of the image.
    pub(crate) fn turned(&self, nodes: &[Placed]) -> Result<Known, AllocError>
        requires nodes { AreNodes (nodes_of nodes.now) }
        requires known { IsKnown (nodes_of nodes.now) self.now }
        ensures known { IfOk result (λ k. IsKnown (nodes_of nodes.now) k) }
    {
        rely!(let _len = self.run.len());
        Ok(Known {
            from: self.to,
            to: self.from,
            run: self.image.copy()?,
            image: self.run.copy()?,
        })
    }

    // Whether the table has it after an identifier of an epoch, which is to be led to another.
    fn is_after(&self, from: EpochName, to: EpochName, id: &Ident) -> bool {
        match compare_names(self.from, from).then(compare_names(self.to, to)) {
            Ordering::Less => false,
            Ordering::Equal => self.run.first().compare(id).is_gt(),
            Ordering::Greater => true,
        }
    }

    // The image of a run, if all of it is in this one.
    pub(crate) fn image_of(&self, nodes: &[Placed], run: &Run) -> Result<Option<Run>, AllocError>
        requires known { IsKnown (nodes_of nodes.now) self.now }
        ensures image { IfOk result (λ image. IfSome image (λ r. run_idents r.0 r.1 ≡ map (translate (nodes_of nodes.now) self.now.from self.now.to) (run_idents run.now.0 run.now.1))) }
    {
        let len = run.len();
        let Some(image) = self.part_from(nodes, run.first(), len)? else {
            return Ok(None);
        };
        if image.len() == len {
            Ok(Some(image))
        } else {
            Ok(None)
        }
    }

    // The image of an identifier and of those after it, at most this many in all, as far as they are in the run.
    fn part_from(
        &self,
        nodes: &[Placed],
        first: &Ident,
        most: u32,
    ) -> Result<Option<Run>, AllocError>
        requires known { IsKnown (nodes_of nodes.now) self.now }
        requires some { 0 < most }
        ensures some { IfOk result (λ part. IfSome part (λ r. 0 < r.1)) }
        ensures within { IfOk result (λ part. IfSome part (λ r. r.1 ≤ most)) }
        ensures part { IfOk result (λ part. IfSome part (λ r. run_idents r.0 r.1 ≡ map (translate (nodes_of nodes.now) self.now.from self.now.to) (run_idents first.now r.1))) }
    {
        let Ok(place) = self.run.find(first) else {
            return Ok(None);
        };
        let len = most.min(self.run.len() - place);
        let part = self.image.part(place, len)?;
        Ok(Some(part))
    }
}

// Known images, in increasing order of the names of their epochs and of their first identifiers.
#[derive(Drop)]
pub(crate) struct KnownImages {
    known: Vec<Box<Known>>,
}

impl KnownImages {
    // None.
    pub(crate) fn new(alloc: Global) -> KnownImages
        ensures none { result.known.items ≡ [] }
    {
        KnownImages {
            known: Vec::new(alloc),
        }
    }

    // None is known any more.
    pub(crate) fn clear(&mut self)
        ensures none { self.new.known.items ≡ [] }
    {
        self.known.clear();
    }

    // Whether none is known.
    pub(crate) fn is_empty(&self) -> bool {
        self.known.is_empty()
    }

    // How many of them the table doesn't have after an identifier of an epoch.
    fn count_up_to(&self, from: EpochName, to: EpochName, id: &Ident) -> usize
        ensures within { result ≤ length self.now.known.items }
    {
        let (mut low, mut high) = (0, self.known.len());
        while low < high {
            let middle = low + (high - low) / 2;
            if self.known[middle].is_after(from, to, id) {
                high = middle;
            } else {
                low = middle + 1;
            }
        }
        low
    }

    // The run that may have an identifier of an epoch: the last one that the table doesn't have after it.
    fn last_up_to(
        &self,
        nodes: &[Placed],
        from: EpochName,
        to: EpochName,
        id: &Ident,
    ) -> Option<&Known>
        requires known { AreKnown (nodes_of nodes.now) self.now }
        ensures known { IfSome result (λ k. IsKnown (nodes_of nodes.now) k.now) }
        ensures from { IfSome result (λ k. k.now.from ≡ from) }
        ensures to { IfSome result (λ k. k.now.to ≡ to) }
    {
        let count = self.count_up_to(from, to, id);
        if count == 0 {
            return None;
        }
        let known: &Known = &self.known[count - 1];
        if known.from.same(&from) && known.to.same(&to) {
            Some(known)
        } else {
            None
        }
    }

    // What is known of the run of an identifier of an epoch, if its image is.
    pub(crate) fn known_of(
        &self,
        nodes: &[Placed],
        from: EpochName,
        to: EpochName,
        id: &Ident,
    ) -> Result<Option<Known>, AllocError>
        requires known { AreKnown (nodes_of nodes.now) self.now }
        ensures known { IfOk result (λ known. IfSome known (λ k. IsKnown (nodes_of nodes.now) k)) }
    {
        match self.last_up_to(nodes, from, to, id) {
            Some(known) if known.run.find(id).is_ok() => {
                let copy = known.copy()?;
                Ok(Some(copy))
            }
            _ => Ok(None),
        }
    }

    // The image of an identifier, if it is known.
    pub(crate) fn image(
        &self,
        nodes: &[Placed],
        from: EpochName,
        to: EpochName,
        id: &Ident,
    ) -> Result<Option<Ident>, AllocError>
        requires known { AreKnown (nodes_of nodes.now) self.now }
        ensures image { IfOk result (λ image. IfSome image (λ x. x ≡ translate (nodes_of nodes.now) from to id.now)) }
    {
        let Some(known) = self.last_up_to(nodes, from, to, id) else {
            return Ok(None);
        };
        let Some(part) = known.part_from(nodes, id, 1)? else {
            return Ok(None);
        };
        let image = part.first().copy()?;
        Ok(Some(image))
    }

    // The image of the identifiers of a run of an epoch from an index on, as far as they are known. If that of the first one isn't, it
    // answers this one.
    pub(crate) fn next_part(
        &self,
        nodes: &[Placed],
        from: EpochName,
        to: EpochName,
        run: &Run,
        i: u32,
    ) -> Result<Result<Run, Ident>, AllocError>
        requires known { AreKnown (nodes_of nodes.now) self.now }
        requires index { i < run.now.1 }
        ensures some { IfOk result (λ part. IfOk part (λ r. 0 < r.1)) }
        ensures within { IfOk result (λ part. IfOk part (λ r. i + r.1 ≤ run.now.1)) }
        ensures part { IfOk result (λ part. IfOk part (λ r. run_idents r.0 r.1 ≡ map (translate (nodes_of nodes.now) from to) (run_idents (shifted (pos i) run.now.0) r.1))) }
    {
        let most = run.len() - i;
        let first = run.first().shifted(i)?;
        let Some(known) = self.last_up_to(nodes, from, to, &first) else {
            return Ok(Err(first));
        };
        let Some(part) = known.part_from(nodes, &first, most)? else {
            return Ok(Err(first));
        };
        Ok(Ok(part))
    }

    // Puts one more in its place. If there are too many, the others are forgotten.
    pub(crate) fn put(&mut self, nodes: &[Placed], known: Known) -> Result<(), AllocError>
        requires known { AreKnown (nodes_of nodes.now) self.old }
        requires new { IsKnown (nodes_of nodes.now) known }
        ensures known { AreKnown (nodes_of nodes.now) self.new }
    {
        if self.known.len() >= MOST_KNOWN {
            self.clear();
        }
        let count = self.count_up_to(known.from, known.to, known.run.first());
        self.known
            .insert(count, Box::new(*self.known.allocator(), known)?)?;
        Ok(())
    }

    // The images of a list, if all are known.
    pub(crate) fn images(
        &self,
        nodes: &[Placed],
        from: EpochName,
        to: EpochName,
        ids: &Runs,
    ) -> Result<Option<Runs>, AllocError>
        requires nodes { AreNodes (nodes_of nodes.now) }
        requires known { AreKnown (nodes_of nodes.now) self.now }
        ensures images { IfOk result (λ images. IfSome images (λ xs. xs ≡ map (translate (nodes_of nodes.now) from to) ids.now)) }
    {
        rely!(let _total = ids.total());
        let mut images = Runs::new(*self.known.allocator());
        for run in ids.as_slice() {
            rely!(let _len = run.len());
            if !self.append_image(nodes, from, to, run, &mut images)? {
                return Ok(None);
            }
        }
        Ok(Some(images))
    }

    // Puts the images of a run after others. If they aren't all known, it may have put some there, and answers no.
    fn append_image(
        &self,
        nodes: &[Placed],
        from: EpochName,
        to: EpochName,
        run: &Run,
        images: &mut Runs,
    ) -> Result<bool, AllocError>
        requires known { AreKnown (nodes_of nodes.now) self.now }
        requires above { IsTrue (is_increasing (images.old ++ map (translate (nodes_of nodes.now) from to) (run_idents run.now.0 run.now.1))) }
        requires total { length images.old + run.now.1 < 2 ^ 64 }
        ensures images { IfOk result (λ all. IsTrue all → images.new ≡ images.old ++ map (translate (nodes_of nodes.now) from to) (run_idents run.now.0 run.now.1)) }
    {
        let len = run.len();
        let mut done = 0;
        while done < len {
            let Ok(part) = self.next_part(nodes, from, to, run, done)? else {
                return Ok(false);
            };
            done += part.len();
            images.append(part)?;
        }
        Ok(true)
    }
}
