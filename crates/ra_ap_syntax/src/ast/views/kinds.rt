//! A view for each kind of node. Made by `tools/views` from `views.txt`.
use crate::ast::{Typed, raw};

/// A constant: `const A: T = a;`.
pub type Const = Typed<{ raw::CONST }>;

/// An enum: `enum E { A, B }`.
pub type Enum = Typed<{ raw::ENUM }>;

/// `extern "C" { .. }`.
pub type ExternBlock = Typed<{ raw::EXTERN_BLOCK }>;

/// `extern crate a as b;`.
pub type ExternCrate = Typed<{ raw::EXTERN_CRATE }>;

/// A function: `fn f(a: T) -> U { .. }`.
pub type Fn = Typed<{ raw::FN }>;

/// An implementation: `impl T for U { .. }`, `impl U { .. }`.
pub type Impl = Typed<{ raw::IMPL }>;

/// A macro call: `m!(..)`.
pub type MacroCall = Typed<{ raw::MACRO_CALL }>;

/// A macro 2.0: `macro m(..) { .. }`.
pub type MacroDef = Typed<{ raw::MACRO_DEF }>;

/// A macro by example: `macro_rules! m { .. }`.
pub type MacroRules = Typed<{ raw::MACRO_RULES }>;

/// A module: `mod m { .. }`, `mod m;`.
pub type Module = Typed<{ raw::MODULE }>;

/// A static: `static A: T = a;`.
pub type Static = Typed<{ raw::STATIC }>;

/// A struct: `struct S { f: T }`, `struct S(T);`, `struct S;`.
pub type Struct = Typed<{ raw::STRUCT }>;

/// A trait: `trait T { .. }`.
pub type Trait = Typed<{ raw::TRAIT }>;

/// A type's other name: `type A = T;`.
pub type TypeAlias = Typed<{ raw::TYPE_ALIAS }>;

/// A union: `union U { f: T }`.
pub type Union = Typed<{ raw::UNION }>;

/// An import: `use a::{b, c};`.
pub type Use = Typed<{ raw::USE }>;

/// A source file.
pub type SourceFile = Typed<{ raw::SOURCE_FILE }>;

/// The parameters of a function or closure: `(&self, a: T)`, `|a|`.
pub type ParamList = Typed<{ raw::PARAM_LIST }>;

/// A parameter: `a: T`.
pub type Param = Typed<{ raw::PARAM }>;

/// The receiver: `&mut self`, `self: T`.
pub type SelfParam = Typed<{ raw::SELF_PARAM }>;

/// `extern "C"`.
pub type Abi = Typed<{ raw::ABI }>;

/// A tree of imports: `a::{b, c as d}`, `a::*`.
pub type UseTree = Typed<{ raw::USE_TREE }>;

/// The trees in braces: `{b, c}`.
pub type UseTreeList = Typed<{ raw::USE_TREE_LIST }>;

/// The named fields of a type with their braces.
pub type RecordFieldList = Typed<{ raw::RECORD_FIELD_LIST }>;

/// A named field of a type: `pub f: T`.
pub type RecordField = Typed<{ raw::RECORD_FIELD }>;

/// The fields of a tuple struct with their parentheses.
pub type TupleFieldList = Typed<{ raw::TUPLE_FIELD_LIST }>;

/// A field of a tuple struct: `pub T`.
pub type TupleField = Typed<{ raw::TUPLE_FIELD }>;

/// A variant of an enum: `A(T) = 1`.
pub type Variant = Typed<{ raw::VARIANT }>;

/// The items of a module with their braces.
pub type ItemList = Typed<{ raw::ITEM_LIST }>;

/// The items of a trait or an implementation with their braces.
pub type AssocItemList = Typed<{ raw::ASSOC_ITEM_LIST }>;

/// The items of an `extern` block with their braces.
pub type ExternItemList = Typed<{ raw::EXTERN_ITEM_LIST }>;

/// A visibility: `pub`, `pub(in a)`.
pub type Visibility = Typed<{ raw::VISIBILITY }>;

/// The part of a visibility in parentheses: `(crate)`, `(in a)`.
pub type VisibilityInner = Typed<{ raw::VISIBILITY_INNER }>;

/// The statements that a macro expands to.
pub type MacroStmts = Typed<{ raw::MACRO_STMTS }>;

/// A type argument: the `T` of `A<T>`.
pub type TypeArg = Typed<{ raw::TYPE_ARG }>;

/// A named argument: `Item = T`, `Item: T`.
pub type AssocTypeArg = Typed<{ raw::ASSOC_TYPE_ARG }>;

/// A lifetime argument: the `'a` of `A<'a>`.
pub type LifetimeArg = Typed<{ raw::LIFETIME_ARG }>;

/// A constant argument: the `1` of `A<1>`.
pub type ConstArg = Typed<{ raw::CONST_ARG }>;

/// A lifetime parameter: `'a: 'b`.
pub type LifetimeParam = Typed<{ raw::LIFETIME_PARAM }>;

/// A type parameter: `T: U = V`.
pub type TypeParam = Typed<{ raw::TYPE_PARAM }>;

/// A constant parameter: `const N: T = a`.
pub type ConstParam = Typed<{ raw::CONST_PARAM }>;

/// A bound: `T`, `'a`, `?T`, `use<..>`.
pub type TypeBound = Typed<{ raw::TYPE_BOUND }>;

/// Bounds: `T + U`.
pub type TypeBoundList = Typed<{ raw::TYPE_BOUND_LIST }>;

/// The parameters of a `use` bound: `<'a, T>`.
pub type UseBoundGenericArgs = Typed<{ raw::USE_BOUND_GENERIC_ARGS }>;

/// Lifetimes that are bound: `for<'a>`.
pub type ForBinder = Typed<{ raw::FOR_BINDER }>;

/// Generic parameters with their angles: `<'a, T>`.
pub type GenericParamList = Typed<{ raw::GENERIC_PARAM_LIST }>;

/// Generic arguments with their angles: `<'a, T>`, `::<T>`.
pub type GenericArgList = Typed<{ raw::GENERIC_ARG_LIST }>;

/// `where T: U, V: W`.
pub type WhereClause = Typed<{ raw::WHERE_CLAUSE }>;

/// A predicate of a `where` clause: `T: U`.
pub type WherePred = Typed<{ raw::WHERE_PRED }>;

/// A name where it is defined.
pub type Name = Typed<{ raw::NAME }>;

/// A name where it is used.
pub type NameRef = Typed<{ raw::NAME_REF }>;

/// A lifetime: `'a`.
pub type Lifetime = Typed<{ raw::LIFETIME }>;

/// A path: `a::b::<T>::c`.
pub type Path = Typed<{ raw::PATH }>;

/// A segment of a path: `b::<T>`, `<T as U>`.
pub type PathSegment = Typed<{ raw::PATH_SEGMENT }>;

/// The type that a path starts at: `<T as U>`.
pub type TypeAnchor = Typed<{ raw::TYPE_ANCHOR }>;

/// `cfg_attr(p, m)`.
pub type CfgAttrMeta = Typed<{ raw::CFG_ATTR_META }>;

/// `cfg(p)`.
pub type CfgMeta = Typed<{ raw::CFG_META }>;

/// An attribute with a value: `a = b`.
pub type KeyValueMeta = Typed<{ raw::KEY_VALUE_META }>;

/// An attribute that is a path: `a::b`.
pub type PathMeta = Typed<{ raw::PATH_META }>;

/// An attribute with arguments: `a(..)`.
pub type TokenTreeMeta = Typed<{ raw::TOKEN_TREE_META }>;

/// `unsafe(m)`.
pub type UnsafeMeta = Typed<{ raw::UNSAFE_META }>;

/// An attribute: `#[a]`, `#![a]`.
pub type Attr = Typed<{ raw::ATTR }>;

/// A documentation comment.
pub type DocComment = Typed<{ raw::DOC_COMMENT }>;

/// A `cfg` predicate of one option: `a`, `a = "b"`.
pub type CfgAtom = Typed<{ raw::CFG_ATOM }>;

/// Tokens with delimiters around them, as of a macro call.
pub type TokenTree = Typed<{ raw::TOKEN_TREE }>;

/// An array: `[a, b]`, `[a; n]`.
pub type ArrayExpr = Typed<{ raw::ARRAY_EXPR }>;

/// Inline assembly: `builtin # asm(..)`.
pub type AsmExpr = Typed<{ raw::ASM_EXPR }>;

/// A future that is awaited: `a.await`.
pub type AwaitExpr = Typed<{ raw::AWAIT_EXPR }>;

/// A binary operator and its operands: `a + b`, `a = b`, `a && b`.
pub type BinExpr = Typed<{ raw::BIN_EXPR }>;

/// A call: `f(a, b)`.
pub type CallExpr = Typed<{ raw::CALL_EXPR }>;

/// A cast: `a as T`.
pub type CastExpr = Typed<{ raw::CAST_EXPR }>;

/// A `cfg!` predicate where an expression is.
pub type CfgPredExpr = Typed<{ raw::CFG_PRED_EXPR }>;

/// A closure: `|a| b`, `move || a`.
pub type ClosureExpr = Typed<{ raw::CLOSURE_EXPR }>;

/// A field: `a.f`, `a.0`.
pub type FieldExpr = Typed<{ raw::FIELD_EXPR }>;

/// Formatted arguments: `builtin # format_args("{}", a)`.
pub type FormatArgsExpr = Typed<{ raw::FORMAT_ARGS_EXPR }>;

/// The bytes of a file: `builtin # include_bytes("f")`.
pub type IncludeBytesExpr = Typed<{ raw::INCLUDE_BYTES_EXPR }>;

/// An index: `a[i]`.
pub type IndexExpr = Typed<{ raw::INDEX_EXPR }>;

/// A literal: a number, a string, a character, a byte, `true` or `false`.
pub type Literal = Typed<{ raw::LITERAL }>;

/// A macro call as an expression.
pub type MacroExpr = Typed<{ raw::MACRO_EXPR }>;

/// A method call: `a.f(b)`.
pub type MethodCallExpr = Typed<{ raw::METHOD_CALL_EXPR }>;

/// The offset of a field: `builtin # offset_of(T, f)`.
pub type OffsetOfExpr = Typed<{ raw::OFFSET_OF_EXPR }>;

/// An expression in parentheses: `(a)`.
pub type ParenExpr = Typed<{ raw::PAREN_EXPR }>;

/// A path as an expression: `a::b`.
pub type PathExpr = Typed<{ raw::PATH_EXPR }>;

/// A prefix operator and its operand: `-a`, `!a`, `*a`.
pub type PrefixExpr = Typed<{ raw::PREFIX_EXPR }>;

/// A range: `a..b`, `a..=b`, `..`.
pub type RangeExpr = Typed<{ raw::RANGE_EXPR }>;

/// A struct with its fields: `S { f: a, ..b }`.
pub type RecordExpr = Typed<{ raw::RECORD_EXPR }>;

/// A borrow: `&a`, `&mut a`, `&raw const a`.
pub type RefExpr = Typed<{ raw::REF_EXPR }>;

/// The question mark: `a?`.
pub type TryExpr = Typed<{ raw::TRY_EXPR }>;

/// A tuple: `(a, b)`, `()`.
pub type TupleExpr = Typed<{ raw::TUPLE_EXPR }>;

/// The `_` that is assigned to.
pub type UnderscoreExpr = Typed<{ raw::UNDERSCORE_EXPR }>;

/// A tail call: `become f(a)`.
pub type BecomeExpr = Typed<{ raw::BECOME_EXPR }>;

/// A block: `{ a; b }`, also `unsafe`, `async`, `const`, `try` and labelled ones.
pub type BlockExpr = Typed<{ raw::BLOCK_EXPR }>;

/// `break`, with a label and a value where it has them.
pub type BreakExpr = Typed<{ raw::BREAK_EXPR }>;

/// `continue`, with a label where it has one.
pub type ContinueExpr = Typed<{ raw::CONTINUE_EXPR }>;

/// A `for` loop: `for p in a { .. }`.
pub type ForExpr = Typed<{ raw::FOR_EXPR }>;

/// `if a { .. } else { .. }`.
pub type IfExpr = Typed<{ raw::IF_EXPR }>;

/// A `let` in a condition: `let p = a`.
pub type LetExpr = Typed<{ raw::LET_EXPR }>;

/// A `loop { .. }`.
pub type LoopExpr = Typed<{ raw::LOOP_EXPR }>;

/// `match a { .. }`.
pub type MatchExpr = Typed<{ raw::MATCH_EXPR }>;

/// `return`, with a value where it has one.
pub type ReturnExpr = Typed<{ raw::RETURN_EXPR }>;

/// A `while` loop: `while a { .. }`.
pub type WhileExpr = Typed<{ raw::WHILE_EXPR }>;

/// `do yeet a`.
pub type YeetExpr = Typed<{ raw::YEET_EXPR }>;

/// `yield a`.
pub type YieldExpr = Typed<{ raw::YIELD_EXPR }>;

/// An expression that is a statement: `a;`.
pub type ExprStmt = Typed<{ raw::EXPR_STMT }>;

/// `let p: T = a else { .. };`.
pub type LetStmt = Typed<{ raw::LET_STMT }>;

/// The arguments of a call: `(a, b)`.
pub type ArgList = Typed<{ raw::ARG_LIST }>;

/// The statements of a block with its braces: `{ a; b }`.
pub type StmtList = Typed<{ raw::STMT_LIST }>;

/// A label: `'a:`.
pub type Label = Typed<{ raw::LABEL }>;

/// The `try` of a block, with its type: `try bikeshed T`.
pub type TryBlockModifier = Typed<{ raw::TRY_BLOCK_MODIFIER }>;

/// The `else { .. }` of a `let`.
pub type LetElse = Typed<{ raw::LET_ELSE }>;

/// The arms of a `match` with their braces.
pub type MatchArmList = Typed<{ raw::MATCH_ARM_LIST }>;

/// An arm of a `match`: `p if a => b,`.
pub type MatchArm = Typed<{ raw::MATCH_ARM }>;

/// The guard of an arm: `if a`.
pub type MatchGuard = Typed<{ raw::MATCH_GUARD }>;

/// A field of a struct that is made: `f: a`.
pub type RecordExprField = Typed<{ raw::RECORD_EXPR_FIELD }>;

/// An argument of `format_args`: `x = a`.
pub type FormatArgsArg = Typed<{ raw::FORMAT_ARGS_ARG }>;

/// `box p`.
pub type BoxPat = Typed<{ raw::BOX_PAT }>;

/// A constant block as a pattern: `const { .. }`.
pub type ConstBlockPat = Typed<{ raw::CONST_BLOCK_PAT }>;

/// A name that is bound: `ref mut x @ p`.
pub type IdentPat = Typed<{ raw::IDENT_PAT }>;

/// A literal as a pattern.
pub type LiteralPat = Typed<{ raw::LITERAL_PAT }>;

/// A macro call as a pattern.
pub type MacroPat = Typed<{ raw::MACRO_PAT }>;

/// Alternatives: `p | q`.
pub type OrPat = Typed<{ raw::OR_PAT }>;

/// A pattern in parentheses: `(p)`.
pub type ParenPat = Typed<{ raw::PAREN_PAT }>;

/// A path as a pattern.
pub type PathPat = Typed<{ raw::PATH_PAT }>;

/// A range of values: `a..=b`.
pub type RangePat = Typed<{ raw::RANGE_PAT }>;

/// A struct and patterns of its fields: `S { f: p, .. }`.
pub type RecordPat = Typed<{ raw::RECORD_PAT }>;

/// A reference pattern: `&p`.
pub type RefPat = Typed<{ raw::REF_PAT }>;

/// The rest: `..`.
pub type RestPat = Typed<{ raw::REST_PAT }>;

/// A slice and patterns of its elements: `[p, .., q]`.
pub type SlicePat = Typed<{ raw::SLICE_PAT }>;

/// A tuple and patterns of its fields: `(p, q)`.
pub type TuplePat = Typed<{ raw::TUPLE_PAT }>;

/// A tuple struct and patterns of its fields: `S(p, q)`.
pub type TupleStructPat = Typed<{ raw::TUPLE_STRUCT_PAT }>;

/// The pattern that takes all: `_`.
pub type WildcardPat = Typed<{ raw::WILDCARD_PAT }>;

/// A field of a struct that is matched: `f: p`.
pub type RecordPatField = Typed<{ raw::RECORD_PAT_FIELD }>;

/// An array type: `[T; n]`.
pub type ArrayType = Typed<{ raw::ARRAY_TYPE }>;

/// A trait object type: `dyn T + U`.
pub type DynTraitType = Typed<{ raw::DYN_TRAIT_TYPE }>;

/// A function pointer type: `fn(T) -> U`.
pub type FnPtrType = Typed<{ raw::FN_PTR_TYPE }>;

/// A type with bound lifetimes: `for<'a> fn(&'a T)`.
pub type ForType = Typed<{ raw::FOR_TYPE }>;

/// `impl T + U`.
pub type ImplTraitType = Typed<{ raw::IMPL_TRAIT_TYPE }>;

/// The type that is left out: `_`.
pub type InferType = Typed<{ raw::INFER_TYPE }>;

/// A macro call as a type.
pub type MacroType = Typed<{ raw::MACRO_TYPE }>;

/// The type without values: `!`.
pub type NeverType = Typed<{ raw::NEVER_TYPE }>;

/// A type in parentheses: `(T)`.
pub type ParenType = Typed<{ raw::PAREN_TYPE }>;

/// A path as a type: `a::T<U>`.
pub type PathType = Typed<{ raw::PATH_TYPE }>;

/// A raw pointer type: `*const T`, `*mut T`.
pub type PtrType = Typed<{ raw::PTR_TYPE }>;

/// A reference type: `&'a T`, `&mut T`.
pub type RefType = Typed<{ raw::REF_TYPE }>;

/// A slice type: `[T]`.
pub type SliceType = Typed<{ raw::SLICE_TYPE }>;

/// A tuple type: `(T, U)`, `()`.
pub type TupleType = Typed<{ raw::TUPLE_TYPE }>;

/// The type that is returned: `-> T`.
pub type RetType = Typed<{ raw::RET_TYPE }>;
