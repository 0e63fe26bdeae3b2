//! A document, parsed once.
ghost use Rattle.std.specs.Prelude.{◌≡◌, None, Some, IfOk, MatchResult};
ghost use Rattle.toml.specs.Parse.{parse_document};
ghost use Rattle.toml.specs.View.{table_view};
ghost use Rattle.agc_document.specs.declared.fault.BenchFault.TheVariants as refusal;
ghost use Rattle.agc_check.specs.Findings.{AreFindings};

use crate::finding::Findings;
use crate::reading::no_document_finding;
use agc_document::table_of;
use std::alloc::{AllocError, Global};
use std::marker::Model;
use toml::Table;

/// A TOML document: its text, and its table. Contracts see its text.
#[derive(Drop)]
pub struct Document<'a> {
    text: &'a str,
    table: Table,
}

impl<'a> Model for Document<'a> {
    ghost use Rattle.std.specs.Prelude.{◌≡◌, ℕ, List, Some};
    ghost use Rattle.toml.specs.Parse.{parse_document};
    ghost use Rattle.toml.specs.View.{table_view};

    ghost Value = { List ℕ };

    ghost view = { λ d. d.text.now };

    ghost invariant = { λ d. parse_document d.text.now ≡ Some (table_view d.table) };
}

impl<'a> Document<'a> {
    /// The document that a text is, or why it is none.
    ///
    /// # Errors
    ///
    /// If memory runs out.
    pub fn parse(alloc: Global, text: &'a str) -> Result<Result<Document<'a>, Findings>, AllocError>
        ensures { IfOk result (λ read. MatchResult read
            (λ d. d ≡ text.entry.now)
            (λ fs. (parse_document text.entry.now ≡ None)
            × AreFindings text.entry.now refusal.NotToml fs)) }
    {
        match table_of(alloc, text)? {
            Ok(table) => Ok(Ok(Document { text, table })),
            Err(error) => Ok(Err(no_document_finding(alloc, text, &error)?)),
        }
    }

    /// Its text.
    pub fn text(&self) -> &'a str
        ensures { result.now ≡ self.now }
    {
        self.text
    }

    /// Its table.
    pub fn table(&self) -> &Table
        ensures { parse_document self.now ≡ Some (table_view result.now) }
    {
        &self.table
    }
}
