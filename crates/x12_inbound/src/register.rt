//! The duplicate register of a receiver: the filed interchanges by rising sender and number, and
//! the postings by rising key.
ghost use Rattle.std.specs.Prelude.{◌≡◌, ◌≤◌, None, IsOk, IfErr, OnOk, OnErr};
ghost use Rattle.std.specs.Prelude.{length, map, option_map};
ghost use Rattle.x12_acks.specs.Key.{key_view};
ghost use Rattle.x12_inbound.specs.Filing.{filed_under, filed_row_view};
ghost use Rattle.x12_inbound.specs.Posting.{posting_view};
ghost use Rattle.x12_inbound.specs.Arrival.{RiseByKey};
ghost use Rattle.x12_inbound.specs.Register.{empty_register, found, register_posting, AreRecords};
ghost use Rattle.x12_inbound.specs.Register.{FilesInterchange, IsRegisterOf};

use crate::arrival::Kept;
use crate::filing::{Filed, FiledRow};
use crate::order::{compare_interchanges, compare_sets};
use crate::place::{append_at, interchange_place, posting_at, postings_place, put_at, row_at};
use crate::posting::Posting;
use std::alloc::{AllocError, Global};
use std::marker::Model;
use x12_acks::SetKey;
use x12_envelopes::Party;

/// The duplicate register of a receiver, and its postings.
///
/// An interchange is filed once under its sender and number, and the postings are the accepted
/// transaction sets of the filed interchanges.
#[derive(Drop)]
pub struct Register {
    rows: Vec<FiledRow>,
    postings: Vec<Posting>,
}

impl Model for Register {
    ghost use Rattle.std.specs.Prelude.{◌-◌, map, vec_len, vec_capacity};
    ghost use Rattle.x12_inbound.specs.Filing.{filed_row_view};
    ghost use Rattle.x12_inbound.specs.Posting.{posting_view};
    ghost use Rattle.x12_inbound.specs.Register.{DuplicateRegister, IsInOrder};

    ghost Value = { DuplicateRegister };

    ghost view = { λ r. record {
      filed = map filed_row_view r.rows.items;
      postings = map posting_view r.postings.items;
      room = vec_capacity r.rows - vec_len r.rows;
      posting_room = vec_capacity r.postings - vec_len r.postings;
    } };

    ghost invariant = { λ r.
        IsInOrder (map filed_row_view r.rows.items) (map posting_view r.postings.items) };
}

impl Register {
    /// A register that holds nothing.
    #[tactic(auto, unfolding(crate::specs::Register::empty_register))]
    pub fn new(alloc: Global) -> Register
        ensures { result ≡ empty_register result.room result.posting_room }
    {
        Register {
            rows: Vec::new(alloc),
            postings: Vec::new(alloc),
        }
    }

    /// The register of these filed interchanges and these postings, in whatever order they come. No
    /// partner and number stands twice among the interchanges and no key among the postings, and
    /// each posting is of one of the interchanges. Takes no memory.
    pub fn from_rows(rows: Vec<FiledRow>, postings: Vec<Posting>) -> Register
        requires { AreRecords (map filed_row_view rows.items) (map posting_view postings.items) }
        ensures { IsRegisterOf (map filed_row_view rows.items) (map posting_view postings.items) result }
    {
        let mut rows = rows;
        let mut postings = postings;
        rows.sort_unstable_by(|a, b| compare_interchanges(&a.partner, a.icn, &b.partner, b.icn));
        postings.sort_unstable_by(|a, b| compare_sets(&a.key, &b.key));
        Register { rows, postings }
    }

    /// Makes room for one more interchange with this many postings, so that the next
    /// [`Register::add`] with no more of them can't miss memory.
    pub fn reserve(&mut self, postings: usize) -> Result<(), AllocError>
        ensures room { OnOk result (1 ≤ self.new.room) }
        ensures posting_room { OnOk result (postings ≤ self.new.posting_room) }
        ensures unchanged { self.new ≡
            record self.old { room = self.new.room; posting_room = self.new.posting_room } }
    {
        self.rows.reserve(1)?;
        self.postings.reserve(postings)
    }

    /// What is filed under this partner and number.
    pub fn find(&self, partner: &Party, icn: u32) -> Option<&Filed>
        ensures { option_map (λ f. filed_under partner.now icn f.now) result
            ≡ found self.now partner.now icn }
    {
        row_at(&self.rows, partner, icn)
    }

    /// Files an interchange with its reply, and posts its postings. Nothing is filed under its
    /// partner and number, as [`look`](crate::look) told.
    ///
    /// Where memory is missing, which can't be after [`Register::reserve`], it comes back.
    pub fn add(&mut self, kept: Kept) -> Result<(), (Kept, AllocError)>
        requires { found self.old kept.filed.partner kept.filed.icn ≡ None }
        ensures ok { OnOk result (FilesInterchange kept self.old self.new) }
        ensures reserved { 1 ≤ self.old.room → length kept.postings ≤ self.old.posting_room →
            IsOk result }

        ensures err { OnErr result (self.new ≡
            record self.old { room = self.new.room; posting_room = self.new.posting_room }) }
        ensures back { IfErr result (λ e. e.0 ≡ kept) }
    {
        let Kept { row, mut postings } = kept;
        let at = interchange_place(&self.rows, &row.partner, row.icn);
        let behind = postings_place(&self.postings, &row.partner, row.icn);
        if let Err(refused) = self.rows.reserve(1) {
            return Err((Kept { row, postings }, refused));
        }
        if let Err(refused) = append_at(&mut self.postings, behind, &mut postings) {
            return Err((Kept { row, postings }, refused));
        }
        put_at(&mut self.rows, at, row);
        Ok(())
    }

    /// The postings, by rising key.
    pub fn postings(&self) -> &[Posting]
        ensures postings { map posting_view result.now ≡ self.now.postings }
        ensures rise { RiseByKey self.now.postings }
    {
        &self.postings
    }

    /// The posting of this key.
    pub fn posted(&self, key: &SetKey) -> Option<&Posting>
        ensures { option_map (λ p. posting_view p.now) result
            ≡ register_posting self.now (key_view key.now) }
    {
        posting_at(&self.postings, key)
    }
}
