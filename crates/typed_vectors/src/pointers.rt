//! Pointers that remember what a node is viewed as.
use either::Either;
use lossless_tree::SyntaxNode;
use plain_trees::PlainTree;
use ra_ap_syntax::{AstNode, AstPtr, SyntaxKind, SyntaxNodePtr, TextRange, TextSize, ast};
use std::hash::{DefaultHasher, Hash, Hasher};
use std::test::Fail;

// `struct Foo { f: u32, }`
const RECORD: &str =
    "SOURCE_FILE( STRUCT( STRUCT_KW:struct WHITESPACE:~ NAME( IDENT:Foo ) WHITESPACE:~ \
    RECORD_FIELD_LIST( L_CURLY:{ WHITESPACE:~ RECORD_FIELD( NAME( IDENT:f ) COLON:: WHITESPACE:~ \
    PATH_TYPE( PATH( PATH_SEGMENT( NAME_REF( IDENT:u32 ) ) ) ) ) COMMA:, WHITESPACE:~ R_CURLY:} ) ) )";

fn built(rt: &HostRuntime) -> Result<SyntaxNode, Fail> {
    PlainTree::read(rt.alloc(), RECORD)?.build(rt.alloc())
}

fn field(root: &SyntaxNode) -> Result<ast::RecordField, Fail> {
    let found = root
        .descendants()
        .find(|node| node.kind() == SyntaxKind::RECORD_FIELD);
    let node = found.ok_or("no field")?;
    Ok(ast::RecordField::cast(node).ok_or("the field is another node")?)
}

fn hash_of(pointer: &AstPtr<ast::RecordField>) -> u64 {
    let mut hasher = DefaultHasher::new();
    pointer.hash(&mut hasher);
    hasher.finish()
}

#[test]
fn field_is_found_again(rt: HostRuntime) -> Result<(), Fail> {
    let root = built(&rt)?;
    let field = field(&root)?;
    let raw = SyntaxNodePtr::new(field.syntax());
    let found = raw.to_node(&root).ok_or("the field is not found")?;
    assert!(rt; found == *field.syntax());
    let range = TextRange::new(TextSize::new(13), TextSize::new(19));
    assert_eq!(rt; raw.text_range(), range);

    let pointer = AstPtr::new(&field);
    let again = built(&rt)?;
    let found = pointer.to_node(&again).ok_or("no view of the field")?;
    assert!(rt; found.syntax() == field.syntax());
    assert!(rt; pointer.syntax_node_ptr() == raw);
    assert!(rt; SyntaxNodePtr::from(pointer) == raw);
    assert!(rt; pointer.kind() == SyntaxKind::RECORD_FIELD);
    assert_eq!(rt; pointer.text_range(), range);
    let copy = pointer;
    assert!(rt; copy == pointer);
    assert_eq!(rt; hash_of(&copy), hash_of(&pointer));
    Ok(())
}

#[test]
fn pointers_are_cast(rt: HostRuntime) -> Result<(), Fail> {
    let root = built(&rt)?;
    let field = field(&root)?;
    let pointer = AstPtr::new(&field);
    let raw = pointer.syntax_node_ptr();
    assert!(rt; pointer.cast::<ast::Name>().is_none());
    assert!(rt; pointer.cast::<ast::RecordField>() == Some(pointer));
    assert!(rt; AstPtr::<ast::Name>::try_from_raw(raw).is_none());
    assert!(rt; AstPtr::<ast::RecordField>::try_from_raw(raw) == Some(pointer));
    let left = pointer.wrap_left::<ast::Name>();
    let Some(Either::Left(found)) = left.to_node(&root) else {
        return Err(Fail::from("the left one is not found"));
    };
    assert!(rt; found.syntax() == field.syntax());
    let right = pointer.wrap_right::<ast::Name>();
    let Some(Either::Right(found)) = right.to_node(&root) else {
        return Err(Fail::from("the right one is not found"));
    };
    assert!(rt; found.syntax() == field.syntax());
    let owner = root.first_child().ok_or("no struct")?;
    let owner = ast::Struct::cast(owner).ok_or("the struct is another node")?;
    let item = AstPtr::new(&owner).upcast::<ast::Item>();
    let Some(ast::Item::Struct(found)) = item.to_node(&root) else {
        return Err(Fail::from("the struct is not found"));
    };
    assert!(rt; found.syntax() == owner.syntax());
    Ok(())
}
