//! The order in which studies, series and files are listed.
use crate::studies::{ByUid, Instance, Series, Study};
use std::alloc::{AllocError, Allocator};
use std::str;

/// The sort key, the UID and the index of an item.
type Rank<'a, K> = (K, &'a [u8], usize);

/// Returns the indices of the items, in order. Fails if memory runs out.
fn indices_of<'a, A: Allocator + Copy, K: Ord + Drop>(
    alloc: A,
    ranks: Vec<Rank<'a, K>, A>,
) -> Result<Vec<usize, A>, AllocError> {
    let mut ranks = ranks;
    ranks.sort()?;
    let mut order = Vec::new(alloc);
    for (_, _, index) in ranks {
        order.push(index)?;
    }
    Ok(order)
}

/// Returns the integer in a decimal text, or `i64::MAX` if the text is no number.
fn number_in(text: &[u8]) -> i64 {
    match str::from_utf8(text) {
        Ok(text) => text.trim().parse::<i64>().unwrap_or(i64::MAX),
        Err(_) => i64::MAX,
    }
}

/// Returns the indices of the studies, ordered by date and then by UID. Fails if memory runs out.
pub(crate) fn order_of_studies<A: Allocator + Copy>(
    alloc: A,
    studies: &ByUid<Study<A>, A>,
) -> Result<Vec<usize, A>, AllocError> {
    let mut ranks = Vec::new(alloc);
    for (index, (uid, study)) in studies.iter().enumerate() {
        ranks.push((study.date.as_slice(), uid.as_slice(), index))?;
    }
    indices_of(alloc, ranks)
}

/// Returns the indices of the series of a study, ordered by number and then by UID. Fails if memory
/// runs out.
pub(crate) fn order_of_series<A: Allocator + Copy>(
    alloc: A,
    series: &ByUid<Series<A>, A>,
) -> Result<Vec<usize, A>, AllocError> {
    let mut ranks = Vec::new(alloc);
    for (index, (uid, series)) in series.iter().enumerate() {
        let number = number_in(series.number.as_slice());
        ranks.push((number, uid.as_slice(), index))?;
    }
    indices_of(alloc, ranks)
}

/// Returns the indices of the files of a series, ordered by number and then by UID. Fails if memory
/// runs out.
pub(crate) fn order_of_instances<A: Allocator + Copy>(
    alloc: A,
    instances: &[Instance<A>],
) -> Result<Vec<usize, A>, AllocError> {
    let mut ranks = Vec::new(alloc);
    for (index, instance) in instances.iter().enumerate() {
        let number = number_in(instance.number.as_slice());
        ranks.push((number, instance.uid.as_slice(), index))?;
    }
    indices_of(alloc, ranks)
}

/// Returns the modalities of the series of a study in ascending order, each once. Fails if memory
/// runs out.
pub(crate) fn modalities_of<'a, A: Allocator + Copy>(
    alloc: A,
    study: &'a Study<A>,
) -> Result<Vec<&'a [u8], A>, AllocError> {
    let mut modalities = Vec::new(alloc);
    for series in study.series.values() {
        if !series.modality.is_empty() {
            modalities.push(series.modality.as_slice())?;
        }
    }
    modalities.sort()?;
    modalities.dedup();
    Ok(modalities)
}
