//! Where a dependency is typed.

ghost use Rattle.std.proofs.Props.{props};
ghost use Rattle.std.specs.Prelude.{◌≡◌, ℕ, List};
ghost use Rattle.vc_types.specs.Meanings.{variables_of};
ghost use Rattle.vc_types_names.specs.FirstNames.{value_of};
ghost use Rattle.vc_types_meanings.specs.Referents.{referent_among};

use crate::meanings::{owned_meaning, plain_meaning, variable_member, variable_value};
use crate::tree::Tree;
use crate::variables::referents;
use std::alloc::{AllocError, Global};
use vc_syntax_tree::{NameLeaf, Object, Operand, Owner};
use vc_types::{Meaning, Place, Referent};
use vc_types_names::{FirstNamed, Names};

/// Where a dependency is typed: in which model, at which place, with which `?` variables.
#[derive(Drop)]
pub struct Setting<'n, 'm, 't> {
    names: &'n Names<'m>,
    place: Place,
    objects: &'t [Object],
    variables: FirstNamed<Referent>,
    ghost variables_are: { (name : List ℕ) → value_of variables name
        ≡ referent_among (variables_of names.now.model.now objects.now) name } by { Prim.hlevel props },
}

impl<'n, 'm, 't> Setting<'n, 'm, 't> {
    ghost use Rattle.std.specs.Prelude.{IfOk};
    ghost use Rattle.vc_syntax_tree.specs.declared.Operand.TheVariants.{Owned};
    ghost use Rattle.vc_syntax_tree.specs.declared.Owner.TheVariants.{Itself};
    ghost use Rattle.vc_types.specs.Meanings.{referent_of, variable_named};
    ghost use Rattle.vc_types.specs.Settings.{setting_of, meaning};
    ghost use Rattle.vc_types_meanings.specs.Borrowed.{tree_of};
    ghost use Rattle.vc_types_meanings.specs.Seen.{seen};

    /// The setting of a dependency at a place.
    pub fn new(
        alloc: Global,
        names: &'n Names<'m>,
        place: Place,
        tree: Tree<'t>,
    ) -> Result<Setting<'n, 'm, 't>, AllocError>
        ensures { IfOk result (λ setting. seen setting ≡ setting_of names.now.model.now place (tree_of tree.entry)) }
    {
        let objects = match tree {
            Tree::Constraint(constraint) => constraint.objects.as_slice(),
            _ => &[],
        };
        let variables = referents(alloc, names, objects)?;
        Ok(Setting {
            names,
            place,
            objects,
            variables,
        })
    }

    /// The index of the model's names.
    pub fn names(&self) -> &Names<'m>
        ensures { result.now.model.now ≡ (seen self.now).model }
    {
        self.names
    }

    /// The place.
    pub fn place(&self) -> Place
        ensures { result ≡ (seen self.now).place }
    {
        self.place
    }

    /// What the variable stands for, if it is declared.
    pub fn referent(&self, name: &NameLeaf) -> Option<Referent>
        ensures { result ≡ referent_of (variable_named (seen self.now).variables (name.now).name) }
    {
        self.variables.find(name.name.bytes())
    }

    /// What the operand means.
    pub fn meaning(&self, operand: &Operand) -> Meaning
        ensures { result ≡ meaning (seen self.now) operand.now }
    {
        match operand {
            Operand::Plain(leaf) => plain_meaning(self.names, &self.place, leaf.name.bytes()),
            Operand::Owned(owner, leaf) => {
                owned_meaning(self.names, &self.place, *owner, leaf.name.bytes())
            }
            Operand::Member(variable, leaf) => variable_member(
                self.names,
                self.place.at,
                leaf.name.bytes(),
                self.referent(variable.get()),
            ),
            Operand::Variable(leaf) => variable_value(self.place.at, self.referent(leaf)),
        }
    }

    /// What `$SELF` with the name means.
    pub fn own_meaning(&self, name: &NameLeaf) -> Meaning
        ensures { result ≡ meaning (seen self.now) (Owned Itself name.now) }
    {
        owned_meaning(self.names, &self.place, Owner::Itself, name.name.bytes())
    }
}
