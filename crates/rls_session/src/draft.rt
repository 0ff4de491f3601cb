//! What an editor changed and is no operation yet.
//! Why: docs/DECISIONS.md, 226.

ghost use Rattle.std.specs.Prelude.{◌≡◌, ◌+◌, ◌-◌, ◌≤◌, ◌<◌, ◌^◌, length, IfOk, IsTrue};
ghost use Rattle.rls_session.specs.Drafts.{no_draft, is_none, draft_of, joins, joined, merged};

use rls_runs::Text;
use std::alloc::{AllocError, Global};

/// A change goes on with a draft only if what comes of both has at most this many characters, and takes out at most this many.
pub const DRAFT_CHARACTERS: u64 = 4096;

/// `count` characters of the replica's text from `at` on are to become `text`. Where `count` is 0 and there is no text, nothing is to be done.
#[derive(Drop)]
pub struct Draft {
    pub at: u64,
    pub count: u64,
    pub text: Text,
}

impl Draft {
    /// The draft that says nothing.
    pub(crate) fn none(alloc: Global) -> Draft
        ensures none { result ≡ no_draft }
    {
        Draft {
            at: 0,
            count: 0,
            text: Text::new(alloc),
        }
    }

    /// Whether it says nothing.
    pub(crate) fn is_none(&self) -> bool
        ensures none { result ≡ is_none self.now }
    {
        self.count == 0 && self.text.len() == 0
    }

    /// The draft after a change of what is shown, where the replica's text has so many characters, if it goes on with this one: it lies within
    /// what is shown, touches the draft's text, and what comes of it is within bounds.
    pub(crate) fn joined(&self, total: u64, change: &Draft) -> Result<Option<Draft>, AllocError>
        requires within { self.now.at + self.now.count ≤ total }
        ensures joined { IfOk result (λ d. d ≡ joined total self.now change.now) }
    {
        let Draft { at, count, text } = change;
        if !self.joins(total, *at, *count, text) {
            return Ok(None);
        }
        let draft = self.merge(*at, *count, text)?;
        Ok(Some(draft))
    }

    // Whether the change goes on with this draft.
    fn joins(&self, total: u64, at: u64, count: u64, text: &Text) -> bool
        requires within { self.now.at + self.now.count ≤ total }
        ensures joins { result ≡ joins total self.now (draft_of at count text.now) }
        ensures ends { IsTrue result → self.now.at + length self.now.text < 2 ^ 64 }
        ensures to { IsTrue result → at + count < 2 ^ 64 }
        ensures low { IsTrue result → at ≤ self.now.at + length self.now.text }
        ensures high { IsTrue result → self.now.at ≤ at + count }
        ensures cut { IsTrue result → (self.now.at - at) + (self.now.count + (at + count - (self.now.at + length self.now.text))) < 2 ^ 64 }
    {
        let size = self.text.len() as u64;
        let added = text.len() as u64;
        let Some(most) = total.checked_add(size) else {
            return false;
        };
        let shown = most - self.count;
        if self.is_none() || count == 0 && added == 0 || at > shown || count > shown - at {
            return false;
        }
        let end = self.at + size;
        let to = at + count;
        if at > end || to < self.at {
            return false;
        }
        let front = less(at, self.at);
        let rest = less(end, to).min(size);
        less(self.at, at) + self.count + less(to, end) <= DRAFT_CHARACTERS
            && front <= DRAFT_CHARACTERS
            && added <= DRAFT_CHARACTERS
            && rest <= DRAFT_CHARACTERS
            && front + added + rest <= DRAFT_CHARACTERS
    }

    // The draft after it.
    fn merge(&self, at: u64, count: u64, text: &Text) -> Result<Draft, AllocError>
        requires ends { self.now.at + length self.now.text < 2 ^ 64 }
        requires to { at + count < 2 ^ 64 }
        requires low { at ≤ self.now.at + length self.now.text }
        requires high { self.now.at ≤ at + count }
        requires cut { (self.now.at - at) + (self.now.count + (at + count - (self.now.at + length self.now.text))) < 2 ^ 64 }
        ensures merged { IfOk result (λ d. d ≡ merged self.now (draft_of at count text.now)) }
    {
        let size = self.text.len() as u64;
        let end = self.at + size;
        let to = at + count;
        let front = less(at, self.at);
        let back = less(to, self.at).min(size);
        let mut whole = self.text.copy()?;
        let tail = whole.split_off(back as usize)?;
        whole.truncate(front as usize);
        whole.append(text)?;
        whole.append(&tail)?;
        Ok(Draft {
            at: at.min(self.at),
            count: less(self.at, at) + (self.count + less(to, end)),
            text: whole,
        })
    }
}

// By how much the first is greater, or 0.
fn less(a: u64, b: u64) -> u64
    ensures less { result ≡ a - b }
{
    if a > b { a - b } else { 0 }
}
