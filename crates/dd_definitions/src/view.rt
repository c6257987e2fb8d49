ghost use Rattle.std.specs.Prelude.{◌≡◌, MatchResult, true, false};
ghost use Rattle.dd_definitions.specs.Views.{is_view_formed};

use crate::view_parts::{ViewParts, is_view_formed};
use dd_names::TryCopy;
use std::alloc::AllocError;
use std::marker::Model;

/// A view whose parts fit together. Contracts see its parts.
#[derive(Drop)]
pub struct ViewDef {
    parts: ViewParts,
}

impl Model for ViewDef {
    ghost use Rattle.std.specs.Prelude.{IsTrue};
    ghost use Rattle.dd_definitions.specs.declared.view_parts.ViewParts.{ViewParts};
    ghost use Rattle.dd_definitions.specs.Views.{is_view_formed};

    ghost Value = { ViewParts };

    ghost view = { λ v. v.parts };

    ghost invariant = { λ v. IsTrue (is_view_formed v.parts) };
}

impl ViewDef {
    /// The view of these parts, or the parts where they don't fit together. It takes no memory.
    pub fn of(parts: ViewParts) -> Result<ViewDef, ViewParts>
        ensures { MatchResult result
            (λ view. (view ≡ parts) × (is_view_formed parts ≡ true))
            (λ back. (back ≡ parts) × (is_view_formed parts ≡ false)) }
    {
        if is_view_formed(&parts) {
            Ok(ViewDef { parts })
        } else {
            Err(parts)
        }
    }

    /// The view's parts, which fit together.
    pub fn parts(&self) -> &ViewParts
        ensures { result.now ≡ self.now }
    {
        &self.parts
    }

    /// The parts by themselves. It takes no memory.
    pub fn into_parts(self) -> ViewParts
        ensures { result ≡ self }
    {
        let ViewDef { parts } = self;
        parts
    }
}

impl TryCopy for ViewDef {
    fn copy(&self) -> Result<ViewDef, AllocError> {
        Ok(ViewDef {
            parts: self.parts.copy()?,
        })
    }
}
