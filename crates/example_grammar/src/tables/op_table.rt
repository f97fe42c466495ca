//! The operations. Written by tools/grammar from arithmetic.grammar.

use grammar_machine::{Level, Op, Test};
use syntax_kind::SyntaxKind;

/// The operations of all rules.
#[rattlefmt::skip]
pub(crate) static OPS: [Op; 236] = [
    Op::Open, Op::IfKind { kind: 1, target: 4 }, Op::Call { target: 6 }, Op::Jump { target: 1 }, Op::Close { kind: SyntaxKind::SOURCE_FILE }, Op::Return, Op::Switch { row: 0 }, Op::Open, Op::Error { message: 2 }, Op::Take,
    Op::Close { kind: SyntaxKind::ERROR }, Op::Return, Op::Open, Op::Enter { target: 17 }, Op::Expect { kind: 9, message: 1 }, Op::Close { kind: SyntaxKind::EXPR_STMT }, Op::Return, Op::Enter { target: 22 }, Op::Answer { answer: 1 },
    Op::IfIn { set: 0, target: 185 }, Op::Answer { answer: 1 }, Op::Leave, Op::Leaf { kind: SyntaxKind::PATH_EXPR }, Op::UnlessKind { kind: 6, target: 21 }, Op::Open, Op::Take, Op::Switch { row: 15 }, Op::Enter { target: 17 },
    Op::Switch { row: 30 }, Op::Expect { kind: 7, message: 4 }, Op::Close { kind: SyntaxKind::ARG_LIST }, Op::Wrap { kind: SyntaxKind::CALL_EXPR }, Op::Leave, Op::Error { message: 7 }, Op::Enter { target: 17 }, Op::Switch { row: 30 },
    Op::Error { message: 7 }, Op::Enter { target: 39 }, Op::Switch { row: 30 }, Op::Open, Op::Take, Op::Enter { target: 48 }, Op::Expect { kind: 7, message: 4 }, Op::Close { kind: SyntaxKind::PAREN_EXPR }, Op::Answer { answer: 1 },
    Op::IfIn { set: 0, target: 185 }, Op::Answer { answer: 1 }, Op::Leave, Op::Switch { row: 45 }, Op::Open, Op::Error { message: 5 }, Op::Take, Op::Close { kind: SyntaxKind::ERROR }, Op::Answer { answer: 0 }, Op::Leave,
    Op::Error { message: 5 }, Op::Answer { answer: 0 }, Op::Leave, Op::Leaf { kind: SyntaxKind::LITERAL }, Op::Answer { answer: 1 }, Op::IfIn { set: 0, target: 185 }, Op::Answer { answer: 1 }, Op::Leave, Op::Open, Op::Take,
    Op::Switch { row: 60 }, Op::Open, Op::Error { message: 5 }, Op::Take, Op::Close { kind: SyntaxKind::ERROR }, Op::Answer { answer: 0 }, Op::Close { kind: SyntaxKind::PREFIX_EXPR }, Op::Answer { answer: 1 },
    Op::IfIn { set: 0, target: 185 }, Op::Answer { answer: 1 }, Op::Leave, Op::Error { message: 5 }, Op::Answer { answer: 0 }, Op::Close { kind: SyntaxKind::PREFIX_EXPR }, Op::Answer { answer: 1 }, Op::Answer { answer: 1 }, Op::Leave,
    Op::Enter { target: 22 }, Op::Answer { answer: 1 }, Op::Close { kind: SyntaxKind::PREFIX_EXPR }, Op::Answer { answer: 1 }, Op::IfIn { set: 0, target: 185 }, Op::Answer { answer: 1 }, Op::Leave, Op::Leaf { kind: SyntaxKind::LITERAL },
    Op::Answer { answer: 1 }, Op::Close { kind: SyntaxKind::PREFIX_EXPR }, Op::Answer { answer: 1 }, Op::IfIn { set: 0, target: 185 }, Op::Answer { answer: 1 }, Op::Leave, Op::Open, Op::Take, Op::Enter { target: 48 },
    Op::Expect { kind: 7, message: 4 }, Op::Close { kind: SyntaxKind::PAREN_EXPR }, Op::Answer { answer: 1 }, Op::Close { kind: SyntaxKind::PREFIX_EXPR }, Op::Answer { answer: 1 }, Op::IfIn { set: 0, target: 185 }, Op::Answer { answer: 1 },
    Op::Leave, Op::Open, Op::Take, Op::Call { target: 117 }, Op::Close { kind: SyntaxKind::PREFIX_EXPR }, Op::Answer { answer: 1 }, Op::Close { kind: SyntaxKind::PREFIX_EXPR }, Op::Answer { answer: 1 }, Op::IfIn { set: 0, target: 185 },
    Op::Answer { answer: 1 }, Op::Leave, Op::Switch { row: 75 }, Op::Open, Op::Error { message: 5 }, Op::Take, Op::Close { kind: SyntaxKind::ERROR }, Op::Reply { answer: 0 }, Op::Error { message: 5 }, Op::Reply { answer: 0 },
    Op::Enter { target: 22 }, Op::Reply { answer: 1 }, Op::Leaf { kind: SyntaxKind::LITERAL }, Op::Reply { answer: 1 }, Op::Open, Op::Take, Op::Enter { target: 48 }, Op::Expect { kind: 7, message: 4 },
    Op::Close { kind: SyntaxKind::PAREN_EXPR }, Op::Reply { answer: 1 }, Op::Open, Op::Take, Op::Switch { row: 90 }, Op::Open, Op::Error { message: 5 }, Op::Take, Op::Close { kind: SyntaxKind::ERROR }, Op::Answer { answer: 0 },
    Op::Close { kind: SyntaxKind::PREFIX_EXPR }, Op::Reply { answer: 1 }, Op::Error { message: 5 }, Op::Answer { answer: 0 }, Op::Close { kind: SyntaxKind::PREFIX_EXPR }, Op::Reply { answer: 1 }, Op::Enter { target: 22 },
    Op::Answer { answer: 1 }, Op::Close { kind: SyntaxKind::PREFIX_EXPR }, Op::Reply { answer: 1 }, Op::Leaf { kind: SyntaxKind::LITERAL }, Op::Answer { answer: 1 }, Op::Close { kind: SyntaxKind::PREFIX_EXPR }, Op::Reply { answer: 1 },
    Op::Open, Op::Take, Op::Enter { target: 48 }, Op::Expect { kind: 7, message: 4 }, Op::Close { kind: SyntaxKind::PAREN_EXPR }, Op::Answer { answer: 1 }, Op::Close { kind: SyntaxKind::PREFIX_EXPR }, Op::Reply { answer: 1 }, Op::Open,
    Op::Take, Op::Call { target: 117 }, Op::Close { kind: SyntaxKind::PREFIX_EXPR }, Op::Answer { answer: 1 }, Op::Close { kind: SyntaxKind::PREFIX_EXPR }, Op::Reply { answer: 1 }, Op::Error { message: 7 }, Op::Enter { target: 175 },
    Op::Switch { row: 30 }, Op::Switch { row: 45 }, Op::Enter { target: 179 }, Op::If { test: Test::Answered { answer: 0 }, target: 29 }, Op::Switch { row: 30 }, Op::Switch { row: 45 }, Op::Open, Op::Error { message: 6 }, Op::Take,
    Op::Close { kind: SyntaxKind::ERROR }, Op::Switch { row: 15 }, Op::Operator { target: 20 }, Op::TakeOperator, Op::CallWith { target: 192, level: Level::Operand, keep: 0, add: 0 }, Op::Wrap { kind: SyntaxKind::BIN_EXPR },
    Op::IfIn { set: 0, target: 185 }, Op::Answer { answer: 1 }, Op::Leave, Op::Open, Op::Switch { row: 45 }, Op::Open, Op::Enter { target: 39 }, Op::Expect { kind: 9, message: 1 }, Op::Close { kind: SyntaxKind::EXPR_STMT }, Op::Return,
    Op::Open, Op::Enter { target: 175 }, Op::Expect { kind: 9, message: 1 }, Op::Close { kind: SyntaxKind::EXPR_STMT }, Op::Return, Op::Open, Op::Take, Op::Switch { row: 105 }, Op::Open, Op::Error { message: 3 }, Op::Take,
    Op::Close { kind: SyntaxKind::ERROR }, Op::Expect { kind: 10, message: 0 }, Op::Enter { target: 48 }, Op::Expect { kind: 9, message: 1 }, Op::Close { kind: SyntaxKind::LET_STMT }, Op::Return, Op::Error { message: 3 },
    Op::Expect { kind: 10, message: 0 }, Op::Enter { target: 48 }, Op::Expect { kind: 9, message: 1 }, Op::Close { kind: SyntaxKind::LET_STMT }, Op::Return, Op::Leaf { kind: SyntaxKind::NAME }, Op::Expect { kind: 10, message: 0 },
    Op::Enter { target: 48 }, Op::Expect { kind: 9, message: 1 }, Op::Close { kind: SyntaxKind::LET_STMT }, Op::Return, Op::Open, Op::Enter { target: 48 }, Op::IfKind { kind: 1, target: 21 }, Op::Error { message: 8 }, Op::Take,
    Op::UnlessKind { kind: 1, target: 232 }, Op::Wrap { kind: SyntaxKind::ERROR }, Op::Leave,
];
