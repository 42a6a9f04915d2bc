//! Domains that are cut by marks, one after another.

ghost use Rattle.std.specs.Prelude.{◌≡◌, ◌∷◌, [], map, IfOk, OnOk};
ghost use Rattle.vc_model_parts.specs.Headers as headers;
ghost use Rattle.vc_compile_plan.specs.Cuts as cuts;
ghost use Rattle.vc_compile_cuts.specs.Cutting.{cut_from, domain_seen, domains_seen};
ghost use Rattle.vc_compile_cuts.specs.Marks.{mark_seen, marks_seen};

use crate::marks::Mark;
use std::alloc::{AllocError, Global};
use vc_model_parts::parts::{Characteristic, NumberValue, Values};
use vc_model_parts::{grains_of, numbers_of};
use vc_value::{Dec, Domain, Listed};
use vc_value_cuts::CutGrains;

/// A domain that is being cut.
#[derive(Debug, Drop)]
pub enum Cutting {
    Texts(Listed<u32>),
    Numbers { decimals: u8, grains: CutGrains },
}

fn uncut_grains(alloc: Global, values: &[NumberValue]) -> Result<CutGrains, AllocError>
    ensures { IfOk result (λ grains. grains ≡ headers.grains_of [] values.now) }
{
    let list = grains_of(alloc, values)?;
    CutGrains::new(alloc, &list)
}

fn uncut(alloc: Global, values: &Values) -> Result<Cutting, AllocError>
    ensures { IfOk result (λ domain. domain_seen domain ≡ headers.domain_of values.now) }
{
    match values {
        Values::Texts { values, .. } => Ok(Cutting::Texts(numbers_of(alloc, values.as_slice())?)),
        Values::Numbers {
            decimals,
            values,
            ..
        } => Ok(Cutting::Numbers {
            decimals: *decimals,
            grains: uncut_grains(alloc, values.as_slice())?,
        }),
    }
}

/// The domains of characteristics, uncut.
pub fn uncut_domains(
    alloc: Global,
    characteristics: &[Characteristic],
) -> Result<Vec<Cutting>, AllocError>
    ensures { IfOk result (λ all. domains_seen all.items ≡ map (λ c. headers.domain_of c.values) characteristics.now) }
{
    let mut all = Vec::new(alloc);
    for characteristic in characteristics {
        all.push(uncut(alloc, &characteristic.values)?)?;
    }
    Ok(all)
}

impl Cutting {
    fn cut(&mut self, alloc: Global, number: Dec) -> Result<(), AllocError>
        ensures { OnOk result (domain_seen self.new ≡ cuts.cut_domain (number ∷ []) (domain_seen self.old)) }
    {
        match self {
            Cutting::Texts(_) => Ok(()),
            Cutting::Numbers { decimals, grains } => grains.cut(alloc, *decimals, number),
        }
    }

    fn to_domain(&self, alloc: Global) -> Result<Domain, AllocError>
        ensures { IfOk result (λ domain. domain ≡ domain_seen self.now) }
    {
        match self {
            Cutting::Texts(texts) => Ok(Domain::Texts(copied(alloc, texts.as_slice())?)),
            Cutting::Numbers { decimals, grains } => Ok(Domain::Nums {
                decimals: *decimals,
                grains: grains.to_list(alloc)?,
            }),
        }
    }
}

fn copied(alloc: Global, numbers: &[u32]) -> Result<Listed<u32>, AllocError>
    ensures { IfOk result (λ copy. copy ≡ numbers.now) }
{
    Ok(Listed::from_vec(Vec::from_slice(alloc, numbers)?))
}

/// The domains as they stand.
pub fn cut_domains(alloc: Global, all: &[Cutting]) -> Result<Listed<Domain>, AllocError>
    ensures { IfOk result (λ domains. domains ≡ domains_seen all.now) }
{
    let mut domains = Listed::new(alloc);
    for domain in all {
        domains.push(domain.to_domain(alloc)?)?;
    }
    Ok(domains)
}

fn cut_by_mark(alloc: Global, all: &mut Vec<Cutting>, mark: Mark) -> Result<(), AllocError>
    ensures { OnOk result (domains_seen all.new.items
        ≡ cut_from (mark_seen mark ∷ []) 0 (domains_seen all.old.items)) }
{
    let place = mark.characteristic as usize;
    if place < all.len() {
        all[place].cut(alloc, mark.number)
    } else {
        Ok(())
    }
}

/// Cuts the domains at marks, each that of its characteristic.
pub fn cut_by_marks(alloc: Global, all: &mut Vec<Cutting>, marks: &[Mark]) -> Result<(), AllocError>
    ensures { OnOk result (domains_seen all.new.items
        ≡ cut_from (marks_seen marks.now) 0 (domains_seen all.old.items)) }
{
    for mark in marks {
        cut_by_mark(alloc, all, *mark)?;
    }
    Ok(())
}
