//! Rows into columns.
ghost use Rattle.std.specs.Prelude.{◌≡◌, ◌<◌, [], All, IfOk, OnOk, length, map, replicate, vec_len};
ghost use Rattle.jm_runner.specs.Tables.{AreColumns, AreLengthened, IsPushedAt};

use jm_model::NoMemory;
use std::alloc::Global;

/// The columns of rows of this width.
pub(crate) fn columns<T: Drop>(
    alloc: Global,
    rows: Vec<Vec<T>>,
    width: usize,
) -> Result<Vec<Vec<T>>, NoMemory>
    requires { All (λ v. length v.items ≡ width) rows.items }
    ensures count { IfOk result (λ columns. vec_len columns ≡ width) }
    ensures columns { IfOk result (λ columns. AreColumns (map (λ v. v.items) rows.items)
        (map (λ v. v.items) columns.items)) }
{
    let mut columns = empty_columns(alloc, width)?;
    for row in rows {
        lengthen(&mut columns, row)?;
    }
    Ok(columns)
}

/// So many columns without an element.
fn empty_columns<T: Drop>(alloc: Global, width: usize) -> Result<Vec<Vec<T>>, NoMemory>
    ensures { IfOk result (λ columns. map (λ v. v.items) columns.items ≡ replicate width []) }
{
    let mut columns = Vec::new(alloc);
    for _k in 0..width {
        columns.push(Vec::new(alloc))?;
    }
    Ok(columns)
}

/// Puts the elements of a row at the ends of the columns, in order.
fn lengthen<T: Drop>(columns: &mut Vec<Vec<T>>, row: Vec<T>) -> Result<(), NoMemory>
    requires { vec_len row ≡ vec_len columns.old }
    ensures { OnOk result (AreLengthened row.items (map (λ v. v.items) columns.old.items)
        (map (λ v. v.items) columns.new.items)) }
{
    let mut k = 0;
    for x in row {
        put(columns, k, x)?;
        k += 1;
    }
    Ok(())
}

/// Puts an element at the end of column k.
fn put<T: Drop>(columns: &mut Vec<Vec<T>>, k: usize, x: T) -> Result<(), NoMemory>
    requires { k < vec_len columns.old }
    ensures count { OnOk result (vec_len columns.new ≡ vec_len columns.old) }
    ensures pushed { OnOk result (IsPushedAt k x (map (λ v. v.items) columns.old.items)
        (map (λ v. v.items) columns.new.items)) }
{
    columns[k].push(x)?;
    Ok(())
}
