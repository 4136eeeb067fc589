// Whether what is read at the end is what was acknowledged.
use crate::bench::calling::amount_of;
use crate::bench::log::Log;
use crate::bench::outcome::Outcome;
use crate::bench::tpcb;
use crate::bench::workload::Workload;
use calls::limits::MAX_AMOUNT;
use calls::{Item, Kind, Refusal};
use catalog::Catalog;
use std::alloc::{AllocError, Global};

/// Whether the content of a store is what its clients were told: the counter's number is the count
/// of calls; no identifier was drawn twice, and all that were drawn are taken; no job was taken
/// or picked twice, and those are left that were put and not taken; all keys are there, of the maps
/// beside which images were written too; of a stock, and of quotas, there is left what was not
/// spent; the accounts, the tellers, the branch and the history have the same sum, and each
/// transaction has its line of history.
pub fn is_right(
    alloc: Global,
    catalog: &Catalog,
    workload: Workload,
    outcome: &Outcome,
) -> Result<bool, Refusal> {
    if workload == Workload::Tpcb {
        return is_balanced(catalog, outcome);
    }
    let (are_once, taken) = taken_once(alloc, outcome.logs.as_slice())?;
    let shown = catalog.show(0)?;
    let items = shown.items.as_slice();
    let count = items.len() as u64;
    let content = workload.content(0);
    let first = u64::from(content.size);
    match content.kind {
        Kind::Pool => Ok(are_once && count == taken.wrapping_add(first)),
        Kind::Set => Ok(are_once && count.wrapping_add(taken) == first),
        Kind::Queue => {
            Ok(are_once && count.wrapping_add(taken) == outcome.put().wrapping_add(first))
        }
        Kind::Map => Ok(count == first && has_all_keys(catalog, workload)?),
        Kind::Quotas => {
            let filled = i128::from(MAX_AMOUNT).wrapping_mul(i128::from(first));
            Ok(sum(items) == filled.wrapping_sub(i128::from(outcome.commits())))
        }
        Kind::Stock => {
            let left = i128::from(MAX_AMOUNT) - i128::from(outcome.commits());
            Ok(total(items) == Some(left))
        }
        Kind::Counter => {
            let calls = outcome.commits().wrapping_mul(u64::from(workload.calls()));
            Ok(total(items) == Some(i128::from(calls)) && has_all_keys(catalog, workload)?)
        }
    }
}

// Whether all keys of the maps are there that were made behind the first collection.
fn has_all_keys(catalog: &Catalog, workload: Workload) -> Result<bool, Refusal> {
    for number in 1..workload.collections() {
        let size = u64::from(workload.content(number).size);
        if catalog.show(number)?.items.len() as u64 != size {
            return Ok(false);
        }
    }
    Ok(true)
}

// Whether the accounts, the tellers, the branch and the history have the same sum, and the history
// as many lines as there were transactions.
fn is_balanced(catalog: &Catalog, outcome: &Outcome) -> Result<bool, Refusal> {
    let mut tellers = 0i128;
    for number in 0..tpcb::BRANCH_AT {
        tellers = tellers.wrapping_add(sum(catalog.show(number)?.items.as_slice()));
    }
    let accounts = sum(catalog.show(tpcb::ACCOUNTS_AT)?.items.as_slice());
    let branch = sum(catalog.show(tpcb::BRANCH_AT)?.items.as_slice());
    let history = catalog.show(tpcb::HISTORY_AT)?;
    let lines = history.items.as_slice();
    let are_same = accounts == branch && tellers == branch && sum(lines) == branch;
    Ok(are_same && lines.len() as u64 == outcome.commits())
}

/// The number of the counter, or of the stock, that these are the items of.
pub fn total(items: &[Item]) -> Option<i128> {
    match items {
        [Item::Number(total)] => Some(*total),
        _ => None,
    }
}

// The sum of the amounts of quotas, the numbers of counters and what the values of maps tell.
fn sum(items: &[Item]) -> i128 {
    let mut sum = 0i128;
    for item in items {
        sum = sum.wrapping_add(match item {
            Item::Amount(_, amount) | Item::Number(amount) => *amount,
            Item::Entry(_, value) => i128::from(amount_of(value)),
            _ => 0,
        });
    }
    sum
}

// Whether nothing was drawn or taken twice, and how much was.
fn taken_once(alloc: Global, logs: &[Log]) -> Result<(bool, u64), AllocError> {
    let taken = all_taken(alloc, logs)?;
    let are_once = taken.windows(2).all(|pair| pair[0] != pair[1]);
    Ok((are_once, taken.len() as u64))
}

// All that was drawn or taken, sorted.
fn all_taken(alloc: Global, logs: &[Log]) -> Result<Vec<u64>, AllocError> {
    let mut all = Vec::new(alloc);
    for log in logs {
        all.extend_from_slice(log.taken.as_slice())?;
    }
    all.as_mut_slice().sort_unstable();
    Ok(all)
}
