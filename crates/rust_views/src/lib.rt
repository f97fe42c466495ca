//! Views of the nodes of Rust's trees for whose kinds `SyntaxKind` has no constant, and the lookups
//! that lead to them and on from them. Made by `tools/views` from `views.txt`.
//!
//! All other views are in `ra_ap_syntax`. A lookup is a method of a trait with the name of the view
//! and `Ext`, because a view is an alias of `ra_ap_syntax`'s `Typed`: after
//! `use rust_views::EnumExt;`, `it.variant_list()` is rust-analyzer's call. A call takes time
//! linear in the number of children that it passes, and no memory.
#![tactic(auto)]

pub mod anys;
pub mod enums;
mod kinds;
pub mod laws;
pub mod lookups;
pub mod raw;
mod shared_traits;
mod within;

pub use anys::any_has_arg_list::AnyHasArgList;
pub use anys::any_has_generic_args::AnyHasGenericArgs;
pub use anys::any_has_loop_body::AnyHasLoopBody;
pub use anys::any_has_module_item::AnyHasModuleItem;
pub use anys::any_has_name::AnyHasName;
pub use anys::any_has_type_bounds::AnyHasTypeBounds;
pub use anys::any_has_visibility::AnyHasVisibility;
pub use enums::asm_operand::AsmOperand;
pub use enums::asm_piece::AsmPiece;
pub use enums::field_list::FieldList;
pub use enums::use_bound_generic_arg::UseBoundGenericArg;
pub use enums::variant_def::VariantDef;
// The formatter would write this many names one per line.
#[rattlefmt::skip]
pub use kinds::{
    AsmClobberAbi, AsmConst, AsmDirSpec, AsmLabel, AsmOperandExpr, AsmOperandNamed, AsmOption,
    AsmOptions, AsmRegOperand, AsmRegSpec, AsmSym, FormatArgsArgName, MacroItems,
    ParenthesizedArgList, RecordExprFieldList, RecordPatFieldList, Rename, ReturnTypeSyntax,
    VariantList,
};
pub use lookups::asm::{
    AsmClobberAbiExt, AsmConstExt, AsmDirSpecExt, AsmExprExt, AsmLabelExt, AsmOperandExprExt,
    AsmOperandNamedExt, AsmOptionExt, AsmOptionsExt, AsmRegOperandExt, AsmRegSpecExt, AsmSymExt,
};
pub use lookups::expr::{
    FormatArgsArgExt, FormatArgsArgNameExt, FormatArgsExprExt, OffsetOfExprExt, RecordExprExt,
    RecordExprFieldListExt, RefExprExt,
};
pub use lookups::item::{
    EnumExt, ExternCrateExt, FnExt, MacroItemsExt, RenameExt, SourceFileExt, StaticExt, StructExt,
    UseTreeExt, VariantExt, VariantListExt,
};
pub use lookups::pat::{BoxPatExt, RecordPatExt, RecordPatFieldListExt};
pub use lookups::path::{
    AssocTypeArgExt, ParenthesizedArgListExt, PathSegmentExt, ReturnTypeSyntaxExt,
    UseBoundGenericArgsExt,
};
