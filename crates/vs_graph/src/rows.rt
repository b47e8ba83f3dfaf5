//! Rows of things: a list for each number below a bound.
ghost use Rattle.std.specs.Prelude.{◌≡◌, ◌<◌, ◌^◌, [], ◌∷◌, ◌++◌, length, IfOk, OnOk};
ghost use Rattle.vs_graph.specs.Rows.{empty_rows, row, rows, with_all, with_one, AreRows};

use crate::families::Family;
use std::alloc::{AllocError, Global};
use std::marker::Model;

/// A list of things for each number below a bound. A contract sees these lists.
#[derive(Drop)]
pub struct Rows<T> {
    all: Vec<Vec<T>>,
}

impl<T> Model for Rows<T> {
    ghost use Rattle.std.specs.Prelude.{List};
    ghost use Rattle.vs_graph.specs.Rows.{rows};

    ghost Value = { List (List T) };

    ghost view = { λ x. rows x.all.items };
}

// So many empty rows.
fn empty_table<T: Drop>(alloc: Global, count: usize) -> Result<Vec<Vec<T>>, AllocError>
    ensures { IfOk result (λ table. rows table.items ≡ empty_rows count) }
{
    let mut table = Vec::new(alloc);
    for _ in 0..count {
        table.push(Vec::new(alloc))?;
    }
    Ok(table)
}

// Puts a thing at the end of the row of a number; past the end there is none.
fn put_at<T: Drop>(table: &mut Vec<Vec<T>>, i: usize, thing: T) -> Result<(), AllocError>
    ensures { OnOk result (rows table.new.items ≡ with_one i thing (rows table.old.items)) }
{
    if let Some(row) = table.get_mut(i) {
        row.push(thing)?;
    }
    Ok(())
}

// The row of a number; past the end it is empty.
fn row_of<T>(table: &[Vec<T>], i: usize) -> &[T]
    ensures { result.now ≡ row (rows table.now) i }
{
    if i < table.len() { &table[i] } else { &[] }
}

impl<T: Drop> Rows<T> {
    /// No rows.
    pub fn none(alloc: Global) -> Rows<T>
        ensures { result ≡ [] }
    {
        Rows {
            all: Vec::new(alloc),
        }
    }

    /// So many rows, all of them empty.
    pub fn empty(alloc: Global, count: usize) -> Result<Rows<T>, AllocError>
        ensures { IfOk result (λ x. x ≡ empty_rows count) }
    {
        let all = empty_table(alloc, count)?;
        Ok(Rows { all })
    }

    /// Puts a row at the end.
    pub fn push(&mut self, row: Vec<T>) -> Result<(), AllocError>
        ensures { OnOk result (self.new ≡ self.old ++ row.items ∷ []) }
    {
        self.all.push(row)?;
        Ok(())
    }

    /// How many rows there are.
    pub fn len(&self) -> usize
        ensures is { result ≡ length self.now }
        ensures most { result < 2 ^ 63 }
    {
        self.all.len()
    }

    /// The row of a number; past the end it is empty.
    pub fn row(&self, i: usize) -> &[T]
        ensures { result.now ≡ row self.now i }
    {
        row_of(&self.all, i)
    }

    /// Puts a thing at the end of the row of a number; past the end there is none.
    pub fn put(&mut self, i: usize, thing: T) -> Result<(), AllocError>
        ensures { OnOk result (self.new ≡ with_one i thing self.old) }
    {
        put_at(&mut self.all, i, thing)
    }
}

impl Rows<usize> {
    /// Puts a number at the ends of the rows of some numbers.
    pub fn put_all(&mut self, rows: &[usize], number: usize) -> Result<(), AllocError>
        ensures { OnOk result (self.new ≡ with_all rows.now number self.old) }
    {
        for i in rows {
            self.put(*i, number)?;
        }
        Ok(())
    }
}

/// For each number below n, which of the first m lists of a family have it. It takes as long as those lists are, and as there are numbers.
pub fn index_of<F: Family>(
    alloc: Global,
    family: &F,
    m: usize,
    n: usize,
) -> Result<Rows<usize>, AllocError>
    ensures len { IfOk result (λ table. length table ≡ n) }
    ensures exact { IfOk result (λ table. AreRows (F.has family.now) m n table) }
{
    let mut table = Rows::empty(alloc, n)?;
    let mut numbers = Vec::new(alloc);
    for i in 0..m {
        numbers.clear();
        family.put(alloc, i, &mut numbers)?;
        table.put_all(&numbers, i)?;
    }
    Ok(table)
}
