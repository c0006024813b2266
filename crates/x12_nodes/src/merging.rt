//! Lists of stamps, merged.

ghost use Rattle.std.specs.Prelude.{◌≡◌, map, IfOk};
ghost use Rattle.x12_nodes.specs.Merging.{all_merged, merged_by, stamp_itself, stamps_rise_from};

use std::alloc::{AllocError, Global};

/// Two lists merged by their stamps.
#[tactic(auto, using(crate::proofs::MergingLemmas::first_less, crate::proofs::MergingLemmas::second_less, crate::proofs::MergingLemmas::one_step, crate::proofs::MergingLemmas::all_first))]
fn merge(alloc: Global, first: &[u64], second: &[u64]) -> Result<Vec<u64>, AllocError>
    ensures { IfOk result (λ v. v.items ≡ merged_by stamp_itself first.now second.now) }
{
    let mut out = Vec::new(alloc);
    let (mut xs, mut ys) = (first, second);
    while let Some((x, more)) = xs.split_first() {
        match ys.split_first() {
            None => {
                out.extend_from_slice(xs)?;
                return Ok(out);
            }
            Some((y, rest)) => {
                if *y < *x {
                    out.push(*y)?;
                    ys = rest;
                } else {
                    out.push(*x)?;
                    xs = more;
                }
            }
        }
    }
    out.extend_from_slice(ys)?;
    Ok(out)
}

/// All of these lists, merged by their stamps.
pub(crate) fn merge_all(alloc: Global, lists: &[Vec<u64>]) -> Result<Vec<u64>, AllocError>
    ensures { IfOk result (λ v.
        v.items ≡ all_merged stamp_itself (map (λ l. l.items) lists.now)) }
{
    let mut out = Vec::new(alloc);
    for list in lists {
        out = merge(alloc, &out, list)?;
    }
    Ok(out)
}

/// Whether stamps rise, from above 0.
pub(crate) fn rise(stamps: &[u64]) -> bool
    ensures { result ≡ stamps_rise_from 0 stamps.now }
{
    let mut last = 0;
    for stamp in stamps {
        if *stamp <= last {
            return false;
        }
        last = *stamp;
    }
    true
}
