//! The scope of a line: all that the lines above it say.

ghost use Rattle.std.specs.Prelude.{◌≡◌, [], IfOk, OnOk};
ghost use Rattle.vc_model_scope.specs.Scope as scopes;

use crate::contents::{column_of, entry_of, item_of, member_of, operation_of, text_of, use_of};
use crate::entries::Entries;
use crate::names::Names;
use crate::naming::{Declared, Dependencies};
use crate::stands::{Under, UsesPlace, counts, is_head, is_root, under_at, uses_place_at};
use crate::tables::{list_entry, list_name, list_number};
use std::alloc::{AllocError, Global};
use std::marker::Model;
use std::mem::replace;
use vc_model_lines::Line;
use vc_value::{Listed, Word};

/// What a line may belong to, and what is listed there so far.
#[derive(Drop)]
pub struct Standing {
    pub under: Under,
    pub texts: Names,
    pub entries: Entries,
    pub members: Names,
    pub columns: Names,
    pub items: Listed<u16>,
    pub operations: Listed<u16>,
}

/// What a USES is for, and what is used there so far.
#[derive(Drop)]
pub struct Uses {
    pub place: UsesPlace,
    pub names: Names,
}

/// What the lines above a line say.
pub struct Scope {
    /// A line counts.
    pub counted: bool,
    pub head: bool,
    pub root: bool,
    pub declared: Declared,
    pub dependencies: Dependencies,
    pub standing: Standing,
    pub uses: Uses,
}

// By hand, as the derived one takes the check minutes wherever a scope is dropped.
impl Drop for Scope {
    fn drop(self) {
        let Scope {
            counted: _,
            head: _,
            root: _,
            declared,
            dependencies,
            standing,
            uses,
        } = self;
        drop(declared);
        drop(dependencies);
        drop(standing);
        drop(uses);
    }
}

impl Standing {
    /// What stands above the first line.
    pub fn new(alloc: Global) -> Standing
        ensures { result ≡ scopes.standing_in [] }
    {
        Standing {
            under: Under::Nothing,
            texts: Names::new(alloc),
            entries: Entries::new(alloc),
            members: Names::new(alloc),
            columns: Names::new(alloc),
            items: Listed::new(alloc),
            operations: Listed::new(alloc),
        }
    }

    /// Adds what a line lists, or begins anew where it belongs to nothing above it.
    pub fn extend(&mut self, alloc: Global, line: &Line) -> Result<(), AllocError>
        ensures { OnOk result (self.new ≡ scopes.with_standing self.old line.now) }
    {
        let under = under_at(line);
        let opens = under.is_some();
        self.under = under.unwrap_or(self.under);
        list_name(alloc, &mut self.texts, opens, text_of(line))?;
        list_entry(alloc, &mut self.entries, opens, entry_of(line))?;
        list_name(alloc, &mut self.members, opens, member_of(line))?;
        list_name(alloc, &mut self.columns, opens, column_of(line))?;
        list_number(alloc, &mut self.items, opens, item_of(line))?;
        list_number(alloc, &mut self.operations, opens, operation_of(line))?;
        Ok(())
    }
}

impl Uses {
    /// What is used above the first line.
    pub fn new(alloc: Global) -> Uses
        ensures { result ≡ scopes.uses_in [] }
    {
        Uses {
            place: UsesPlace::Nowhere,
            names: Names::new(alloc),
        }
    }

    /// Adds what a line uses, or begins anew where it is no USES.
    pub fn extend(&mut self, alloc: Global, line: &Line) -> Result<(), AllocError>
        ensures { OnOk result (self.new ≡ scopes.with_uses self.old line.now) }
    {
        let place = uses_place_at(line);
        let ends = place.is_some();
        self.place = place.unwrap_or(self.place);
        list_name(alloc, &mut self.names, ends, use_of(line))?;
        Ok(())
    }
}

impl Scope {
    /// What stands above the first line.
    #[tactic(auto, unfolding(crate::specs::Scope::scope_of))]
    pub fn new(alloc: Global) -> Scope
        ensures { result ≡ scopes.scope_of [] }
    {
        Scope {
            counted: false,
            head: false,
            root: false,
            declared: Declared::new(alloc),
            dependencies: Dependencies::new(alloc),
            standing: Standing::new(alloc),
            uses: Uses::new(alloc),
        }
    }

    fn mark(&mut self, line: &Line)
        ensures { self.new ≡ scopes.with_marks self.old line.now }
    {
        self.counted = counts(line) || self.counted;
        self.head = is_head(line) || self.head;
        self.root = is_root(line) || self.root;
    }

    /// Goes on to the next line. After an error the scope is that of no line.
    #[tactic(auto, unfolding(crate::specs::Scope::with_line))]
    pub fn extend(&mut self, alloc: Global, line: &Line) -> Result<(), AllocError>
        ensures { OnOk result (self.new ≡ scopes.with_line self.old line.now) }
    {
        self.mark(line);
        self.declared.extend(alloc, line)?;
        self.dependencies.extend(alloc, line)?;
        self.standing.extend(alloc, line)?;
        self.uses.extend(alloc, line)?;
        Ok(())
    }
}

/// A scope that grows line by line, which a contract sees as the scope that it is.
#[derive(Drop)]
pub struct ScopeBuilder {
    scope: Scope,
}

impl Model for ScopeBuilder {
    ghost use Rattle.vc_model_scope.specs.declared.scope.Scope.{Scope as Scopes};

    ghost Value = { Scopes };

    ghost view = { λ b. b.scope };
}

impl ScopeBuilder {
    /// What stands above the first line.
    pub fn new(alloc: Global) -> ScopeBuilder
        ensures { result ≡ scopes.scope_of [] }
    {
        ScopeBuilder {
            scope: Scope::new(alloc),
        }
    }

    /// The scope so far.
    pub fn scope(&self) -> &Scope
        ensures { result.now ≡ self.now }
    {
        &self.scope
    }

    /// Goes on to the next line. After an error the scope is that of no line.
    pub fn extend(&mut self, alloc: Global, line: &Line) -> Result<(), AllocError>
        ensures { OnOk result (self.new ≡ scopes.with_line self.old line.now) }
    {
        self.scope.extend(alloc, line)?;
        Ok(())
    }

    /// The texts of values that were met, as words, none of them copied.
    pub fn into_texts(self, alloc: Global) -> Result<Listed<Word>, AllocError>
        ensures { IfOk result (λ words. words ≡ self.declared.texts) }
    {
        let ScopeBuilder { mut scope } = self;
        let texts = replace(&mut scope.declared.texts, Names::new(alloc));
        texts.into_words(alloc)
    }
}
