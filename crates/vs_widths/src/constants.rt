//! Values that no store changes.
ghost use Rattle.std.specs.Prelude.{◌≡◌, ◌==◌, Some, [], IfOk, length};
ghost use Rattle.vs_design.specs.Uses.{reads};
ghost use Rattle.vs_eval.specs.Values.{value_of};
ghost use Rattle.vs_widths.specs.Senses.{sense};
ghost use Rattle.vs_widths.specs.Constants.{natural_number, whole_number, constant_in};
ghost use Rattle.vs_widths.specs.select_passes.Measures.{meaning, IsFlexible, Knows, Counts, Wholes};

use crate::faults::{WidthFault, WidthReason};
use crate::fitting::fitted;
use crate::forms::{Measured, Sizable};
use crate::shape::Shape;
use std::alloc::{AllocError, Global};
use vs_design::vs_logic4::{Digit, Vec4};
use vs_design::{Bounds, Store, Typed, reads};
use vs_eval::{index_number, reads_hold, sizes_hold, value};

/// The fault that no constant stands where one is wanted, or one out of its range.
pub const NOT_CONSTANT: WidthFault = WidthFault::Refused(WidthReason::NotConstant);

/// The value of a constant expression, or a parameter.
#[derive(Clone, Copy)]
pub struct Const {
    /// Its digits.
    pub value: Vec4,
    /// Whether they are a signed number.
    pub signed: bool,
    /// The range by which bits of it are selected (IEEE 1364-2005, clause 4.10).
    pub bits: Bounds,
}

impl Const {
    /// Digits that are a signed number or an unsigned one, with the range of a declaration; without one their bits are those from one less
    /// than their number down to 0 (profile).
    pub fn new(value: Vec4, signed: bool, range: Option<Bounds>) -> Const
        ensures { result ≡ constant_in range signed value }
    {
        let bits = match range {
            Some(bounds) => bounds,
            None => Bounds {
                left: value.width() as i64 - 1,
                right: 0,
            },
        };
        Const {
            value,
            signed,
            bits,
        }
    }

    /// Its size and sign.
    pub fn shape(self) -> Shape
        ensures width { result.width ≡ length self.value }
        ensures sign { result.signed ≡ self.signed }
    {
        Shape {
            width: self.value.width(),
            signed: self.signed,
        }
    }

    /// The number, where no digit is x or z and it isn't negative.
    pub fn natural(self) -> Option<u64>
        ensures { result ≡ natural_number self.signed self.value }
    {
        if self.signed && self.value.digit(self.value.width() - 1) == Digit::One {
            None
        } else {
            self.value.to_number()
        }
    }

    /// The whole number, where no digit is x or z and 64 bits with a sign hold it.
    pub fn integer(self) -> Option<i64>
        ensures { result ≡ whole_number self.signed self.value }
    {
        if self.signed {
            return self.value.to_signed();
        }
        match self.value.to_number() {
            Some(number) => {
                if number < 1 << 63 {
                    Some(number as i64)
                } else {
                    None
                }
            }
            None => None,
        }
    }
}

/// The value of a form that reads nothing, at a size and a sign.
pub fn known(alloc: Global, form: &Sizable, shape: Shape) -> Result<Vec4, WidthFault>
    requires { (sense form.now).size shape.width ≡ Some shape.width }
    ensures { Knows form.now shape result }
{
    let y = fitted(alloc, form, shape)?;
    let is_constant = reads_nothing(alloc, &y)?;
    if is_constant {
        reads_hold();
        sizes_hold();
        Ok(value_alone(alloc, &y))
    } else {
        Err(NOT_CONSTANT)
    }
}

/// Whether an expression reads nothing.
pub fn reads_nothing(alloc: Global, y: &Typed) -> Result<bool, AllocError>
    ensures { IfOk result (λ b. b ≡ (length (reads y.now) == 0)) }
{
    let ranges = reads(alloc, y)?;
    Ok(ranges.len() == 0)
}

/// The value of an expression in a store without signals.
pub fn value_alone(alloc: Global, y: &Typed) -> Vec4
    ensures { result ≡ value_of y.now [] 0 }
{
    let store = Store::without_signals(alloc);
    value(y, &store, 0)
}

/// A count, as that of a replication or the size of a part-select (IEEE 1364-2005, clauses 5.1.14 and 5.2.1).
#[inline(never)]
pub fn count_of(alloc: Global, count: &Measured) -> Result<u64, WidthFault>
    requires flexible { IsFlexible count.now.form }
    ensures { Counts (meaning count.now) result }
{
    let value = known(alloc, &count.form, count.shape)?;
    let constant = Const::new(value, count.shape.signed, None);
    match constant.natural() {
        Some(number) => {
            if number == 0 {
                return Err(NOT_CONSTANT);
            }
            Ok(number)
        }
        None => Err(NOT_CONSTANT),
    }
}

/// The whole number of a constant, as a bound of a part-select (IEEE 1364-2005, clause 5.2.1).
pub fn whole_of(alloc: Global, x: &Measured) -> Result<i128, WidthFault>
    requires flexible { IsFlexible x.now.form }
    ensures { Wholes (meaning x.now) result }
{
    let value = known(alloc, &x.form, x.shape)?;
    match index_number(x.shape.signed, value) {
        Some(number) => Ok(number),
        None => Err(NOT_CONSTANT),
    }
}
