// Laws that hold for every kind. Each function computes nothing: it is called for its promise.
ghost use Rattle.plain.specs.Examples.{WorkedWindows};
ghost use Rattle.plain.specs.Laws.{Orders, SetLaws, SumsGrow};

use kinds::{Kind, SummedKind};

// Key order and rank order are total orders.
pub fn orders_hold<K: Kind>()
    ensures { Orders K.Kind.meaning }
{}

// Changes keep the order, and change what is found at their key alone.
pub fn set_laws_hold<K: Kind>()
    ensures { SetLaws K.Kind.meaning }
{}

// A sum of the keys of another, at weights no smaller, is no smaller.
pub fn sums_grow<K: SummedKind>()
    ensures { SumsGrow K.Kind.meaning K.number }
{
    K::numbers_hold();
}

// Some windows, worked by hand, are what the definitions say.
pub fn worked_windows_hold()
    ensures { WorkedWindows }
{}
