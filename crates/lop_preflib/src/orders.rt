// The orders of voters.
ghost use Rattle.std.specs.Prelude.{◌≡◌, ◌+◌, ◌<◌, ◌≤◌, ◌^◌, ◌++◌, ◌∷◌, [], length, OnOk};
ghost use Rattle.lop_preflib.specs.Profile.{votes, order_at};
ghost use Rattle.lop_preflib.specs.declared.profile.TheConstants.{MAX_VOTERS};

use std::alloc::{AllocError, Global};
use std::marker::Model;

/// An order: how many voters gave it, and where its objects and their group numbers lie.
#[derive(Clone, Copy, Drop)]
pub(crate) struct Span {
    pub(crate) count: u64,
    pub(crate) start: usize,
    pub(crate) end: usize,
}

/// Orders, whose objects lie one after another, and their group numbers likewise. A contract sees the list of counts,
/// ranked objects and group numbers.
#[derive(Drop)]
pub(crate) struct Orders {
    spans: Vec<Span>,
    objects: Vec<u16>,
    groups: Vec<u16>,
    voters: u64,
}

impl Model for Orders {
    ghost use Rattle.std.specs.Prelude.{List, map};
    ghost use Rattle.lop_preflib.specs.Profile.{CountedOrder, votes};
    ghost use Rattle.lop_preflib.specs.Spans.{order_in, AreSpans};

    ghost Value = { List CountedOrder };

    ghost view = { λ o. map (order_in o.objects.items o.groups.items) o.spans.items };

    ghost invariant = { λ o. AreSpans o.objects.items o.groups.items o.spans.items o.voters };
}

impl Orders {
    pub(crate) fn new(alloc: Global) -> Orders
        ensures { result ≡ [] }
    {
        Orders {
            spans: Vec::new(alloc),
            objects: Vec::new(alloc),
            groups: Vec::new(alloc),
            voters: 0,
        }
    }

    pub(crate) fn len(&self) -> usize
        ensures len { result ≡ length self.now }
        ensures few { votes self.now ≤ MAX_VOTERS }
    {
        self.spans.len()
    }

    /// The sum of the counts.
    pub(crate) fn voters(&self) -> u64
        ensures votes { result ≡ votes self.now }
        ensures few { result ≤ MAX_VOTERS }
    {
        self.voters
    }

    /// One order more.
    pub(crate) fn push(
        &mut self,
        count: u64,
        ranked: &[u16],
        groups: &[u16],
    ) -> Result<(), AllocError>
        requires few { votes self.old + count ≤ MAX_VOTERS }
        requires grouped { length groups.now ≡ length ranked.now }
        ensures { OnOk result (self.new ≡ self.old ++ record { count = count; ranked = ranked.now; groups = groups.now } ∷ []) }
    {
        let start = self.objects.len();
        self.groups.truncate(start);
        self.groups.extend_from_slice(groups)?;
        self.objects.extend_from_slice(ranked)?;
        let end = self.objects.len();
        self.spans.push(Span { count, start, end })?;
        self.voters += count;
        Ok(())
    }

    pub(crate) fn count(&self, index: usize) -> u64
        requires { index < length self.now }
        ensures { result ≡ (order_at self.now index).count }
    {
        self.spans[index].count
    }

    pub(crate) fn ranked(&self, index: usize) -> &[u16]
        requires { index < length self.now }
        ensures { result.now ≡ (order_at self.now index).ranked }
    {
        let span = self.spans[index];
        &self.objects[span.start..span.end]
    }

    pub(crate) fn group_of(&self, index: usize) -> &[u16]
        requires { index < length self.now }
        ensures { result.now ≡ (order_at self.now index).groups }
    {
        let span = self.spans[index];
        &self.groups[span.start..span.end]
    }
}
