// Components with other things in the place of what their texts are known by.
ghost use Rattle.components.specs.Mapped.{BoundBecomes, ComponentBecomes, OptionBecomes, SomeText, TypeBecomes, bound_text, type_text};
ghost use Rattle.std.specs.Option.{ForSome};
ghost use Rattle.std.specs.Prelude.{Ok, Err, IfOk, IfErr, IsSomeAnd};

use crate::component::{Component, ComponentType};
use crate::ranges::{Usb, Usbr};

impl<T: Copy> ComponentType<T> {
    // With what the call makes of a variable, if it makes something.
    fn try_map<U: Copy, E, F: FnOnce(T) -> Result<U, E>>(self, f: F) -> Result<ComponentType<U>, E>
        requires callable { ForSome (type_text self) (F.pre f) }
        ensures mapped { IfOk result (λ t. TypeBecomes (λ a b. F.post f a (Ok b)) self t) }
        ensures refused { IfErr result (λ e. IsSomeAnd (type_text self) (λ a. F.post f a (Err e))) }
    {
        Ok(match self {
            ComponentType::Literal { width, value } => ComponentType::Literal { width, value },
            ComponentType::Variable(text) => ComponentType::Variable(f(text)?),
            ComponentType::Filler => ComponentType::Filler,
        })
    }
}

// A bound with what a call makes of its text, if it makes something. With `map` and `transpose` in the place of the match the
// proof did not close.
fn try_map_bound<T: Copy, U: Copy, E, F: Fn(T) -> Result<U, E>>(
    bound: Option<Usb<T>>,
    f: &F,
) -> Result<Option<Usb<U>>, E>
    requires callable { F.IsAlwaysCallable f.now }
    ensures mapped { IfOk result (λ o. OptionBecomes (BoundBecomes (λ a b. F.post f.now a (Ok b))) bound o) }
    ensures refused { IfErr result (λ e. IsSomeAnd (bound_text bound) (λ a. F.post f.now a (Err e))) }
{
    let Some(Usb { s, x }) = bound else {
        return Ok(None);
    };
    let s = match s {
        Some(text) => Some(f(text)?),
        None => None,
    };
    Ok(Some(Usb { s, x }))
}

impl<T: Copy> Component<T> {
    /// The component with what the calls make of its texts: of the variable's first, then of the start's and the
    /// end's. The first error is the answer.
    pub fn try_map<U: Copy, E, V: FnOnce(T) -> Result<U, E>, B: Fn(T) -> Result<U, E>>(
        self,
        variable: V,
        bound: B,
    ) -> Result<Component<U>, E>
        requires variable { ForSome (type_text self.c_type) (V.pre variable) }
        requires bounds { B.IsAlwaysCallable bound }
        ensures mapped { IfOk result (λ c. ComponentBecomes (λ a b. V.post variable a (Ok b)) (λ a b. B.post bound a (Ok b)) self c) }
        ensures refused { IfErr result (λ e. SomeText (λ a e. V.post variable a (Err e)) (λ a e. B.post bound a (Err e)) self e) }
    {
        let Component { c_type, range } = self;
        let Usbr { start, end } = range;
        let c_type = c_type.try_map(variable)?;
        let start = try_map_bound(start, &bound)?;
        let end = try_map_bound(end, &bound)?;
        Ok(Component {
            c_type,
            range: Usbr { start, end },
        })
    }
}
