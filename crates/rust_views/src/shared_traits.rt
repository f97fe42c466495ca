//! Which views have which of the shared traits. Made by `tools/views` from `views.txt`.
use crate::{
    AnyHasArgList, AnyHasGenericArgs, AnyHasLoopBody, AnyHasModuleItem, AnyHasName,
    AnyHasTypeBounds, AnyHasVisibility, VariantDef,
};
use ra_ap_syntax::ast::{
    HasArgList, HasAttrs, HasGenericArgs, HasLoopBody, HasModuleItem, HasName, HasTypeBounds,
    HasVisibility,
};

impl HasName for VariantDef {}

impl HasVisibility for VariantDef {}

impl HasAttrs for VariantDef {}

impl HasArgList for AnyHasArgList {}

impl HasGenericArgs for AnyHasGenericArgs {}

impl HasLoopBody for AnyHasLoopBody {}

impl HasModuleItem for AnyHasModuleItem {}

impl HasName for AnyHasName {}

impl HasTypeBounds for AnyHasTypeBounds {}

impl HasVisibility for AnyHasVisibility {}
