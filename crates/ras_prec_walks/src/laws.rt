//! What is proved of the walks along operands, at each node by the operand that is meant among its
//! children.
ghost use Rattle.std.specs.Prelude.{◌≡◌, ◌&&◌, ◌||◌, IsTrue};
ghost use Rattle.syntax_kind.specs.declared.syntax_kind.SyntaxKind.TheVariants.{Node};
ghost use Rattle.syntax_kind.specs.declared.syntax_kind.node_kind.NodeKind.TheVariants.{LET_EXPR, RECORD_EXPR};
ghost use Rattle.tree_model.specs.Cursor.{Cursor, at_node};
ghost use Rattle.ras_node.specs.Nodes.{kind_at, is_of_kind, typed_child};
ghost use Rattle.ras_node.specs.Sets.{is_expr};
ghost use Rattle.ras_prec_walks.specs.Along.{is_block_like, is_braced, begins_with_operand, ends_with_operand, last_operand, meant_child, passes, begins_with_block, ends_in_brace};
ghost use Rattle.ras_prec_walks.specs.Inside.{has_exterior_record, has_let, lacks_side, operand_passes, side_passes};
ghost use Rattle.ras_prec_walks.specs.Parts.{is_and};

/// An expression begins with a block where it begins with an operand, its first expression, and
/// that is block-like or begins with a block. It ends in a brace where it ends in one of its own,
/// or ends with an operand that ends in a brace.
pub fn walks_go_by_operands()
    ensures begins { (c : Cursor)
        → begins_with_block c
        ≡ begins_with_operand (kind_at c)
        && passes (λ d. is_block_like (kind_at d) || begins_with_block d)
        (typed_child is_expr c) }
    ensures ends { (c : Cursor)
        → ends_in_brace c
        ≡ is_braced (kind_at c)
        || (ends_with_operand (kind_at c)
        && passes ends_in_brace (meant_child (last_operand (kind_at c)) c)) }
{}

/// A record is in an expression outside delimiters if the expression is one, or if an operand that
/// no delimiters of it surround has one. An expression has a `let` if it is one, or if it is an
/// `&&` that lacks a side or one of whose sides has a `let`.
pub fn searches_go_by_operands()
    ensures records { (c : Cursor) → IsTrue (at_node c)
        → has_exterior_record c
        ≡ is_of_kind (Node RECORD_EXPR) c || operand_passes (kind_at c) has_exterior_record c }
    ensures lets { (c : Cursor) → IsTrue (at_node c)
        → has_let c
        ≡ is_of_kind (Node LET_EXPR) c
        || (is_and c && (lacks_side c || side_passes has_let c)) }
{}
