//! The tree of a program's text (ES3 sections 11 to 14). Parentheses, and semicolons that were
//! inserted, leave no trace in it. Left-associative operators and the suffixes of a member or call
//! are lists.

use ja_base::Place;
use ja_prim::{Int, Primitive, Text16};
use sqlite_items::{Boxed, Items};

/// An identifier (7.6), and where it stands.
#[derive(Drop)]
pub struct Name {
    pub text: Text16,
    pub place: Place,
}

/// `delete`, `void`, `typeof`, `+`, `-`, `~` and `!` before an operand (11.4).
#[derive(Clone, Copy, Debug, PartialEq, Eq)]
pub enum UnaryOperator {
    Delete,
    Void,
    Typeof,
    Plus,
    Minus,
    Complement,
    Not,
}

/// `++` and `--`, before or behind an operand (11.3, 11.4.4, 11.4.5).
#[derive(Clone, Copy, Debug, PartialEq, Eq)]
pub enum UpdateOperator {
    IncrementBefore,
    DecrementBefore,
    IncrementBehind,
    DecrementBehind,
}

/// An operator between two operands (11.5 to 11.11).
#[derive(Clone, Copy, Debug, PartialEq, Eq)]
pub enum BinaryOperator {
    Times,
    Divide,
    Remainder,
    Plus,
    Minus,
    ShiftLeft,
    ShiftRight,
    ShiftRightUnsigned,
    Less,
    Greater,
    LessEqual,
    GreaterEqual,
    Instanceof,
    In,
    Equal,
    NotEqual,
    StrictEqual,
    StrictNotEqual,
    BitAnd,
    BitXor,
    BitOr,
    And,
    Or,
}

/// An operator, at `place`, and its right operand.
#[derive(Drop)]
pub struct Operation<E> {
    pub operator: BinaryOperator,
    pub right: E,
    pub place: Place,
}

/// What stands behind a member or call (11.2): `.NAME` with the place of `.`, `[key]` with that of
/// `[`, `(arguments)` with that of `(`.
#[derive(Drop)]
pub enum Suffix<E> {
    Member { name: Name, place: Place },
    Index { key: E, place: Place },
    Call { arguments: Items<E>, place: Place },
}

/// The name of a property in an object literal (11.1.5).
#[derive(Drop)]
pub enum PropertyName {
    Word(Text16),
    Text(Text16),
    Number(Int),
}

/// A property of an object literal; `place` is that of its name.
#[derive(Drop)]
pub struct Property<E> {
    pub name: PropertyName,
    pub value: E,
    pub place: Place,
}

/// A function (13): a declaration or an expression. `place` is that of the word `function`.
#[derive(Drop)]
pub struct FunctionOf<S> {
    pub name: Option<Name>,
    pub parameters: Items<Name>,
    pub body: Items<S>,
    pub place: Place,
}

/// A function over the statements of this tree.
pub type FunctionTree = FunctionOf<Statement>;

/// An expression (11). The place of an operator that is a field stands beside it; any other place
/// is that of the expression's first token, an opening parenthesis among them.
#[cycle(tree)]
pub enum Expression {
    This {
        place: Place,
    },
    Name(Name),
    /// `null`, `true`, `false`, a number or a string.
    Literal {
        value: Primitive,
        place: Place,
    },
    /// `None` is a hole (11.1.4).
    Array {
        elements: Items<Option<Expression>>,
        place: Place,
    },
    Object {
        properties: Items<Property<Expression>>,
        place: Place,
    },
    Function(Boxed<FunctionOf<Statement>>),
    /// A head and one or more suffixes, the innermost first.
    Chain {
        head: Boxed<Expression>,
        suffixes: Items<Suffix<Expression>>,
    },
    /// `new callee(arguments)`, or `new callee` without arguments.
    New {
        callee: Boxed<Expression>,
        arguments: Items<Expression>,
        place: Place,
    },
    Unary {
        operator: UnaryOperator,
        operand: Boxed<Expression>,
        place: Place,
    },
    /// `place` is that of the operator.
    Update {
        operator: UpdateOperator,
        operand: Boxed<Expression>,
        place: Place,
    },
    /// A first operand and one or more operations of one level of precedence, in the order of the
    /// text.
    Binary {
        first: Boxed<Expression>,
        operations: Items<Operation<Expression>>,
        place: Place,
    },
    Conditional {
        condition: Boxed<Expression>,
        then: Boxed<Expression>,
        otherwise: Boxed<Expression>,
        place: Place,
    },
    /// `target = value`, or `target operator= value`; `place` is that of the operator.
    Assign {
        target: Boxed<Expression>,
        operator: Option<BinaryOperator>,
        value: Boxed<Expression>,
        place: Place,
    },
    /// Two or more expressions between commas.
    Sequence {
        first: Boxed<Expression>,
        others: Items<Expression>,
        place: Place,
    },
}

/// The value of a declared variable; `place` is that of `=`.
#[derive(Drop)]
pub struct Initialiser<E> {
    pub value: E,
    pub place: Place,
}

/// A variable of a `var` (12.2).
#[derive(Drop)]
pub struct Declaration<E> {
    pub name: Name,
    pub initialiser: Option<Initialiser<E>>,
}

/// What stands before the first `;` of a `for` (12.6.3).
#[derive(Drop)]
pub enum ForFirst<E> {
    Nothing,
    Expression(E),
    Variables(Items<Declaration<E>>),
}

/// What a `for`-`in` writes (12.6.4).
#[derive(Drop)]
pub enum ForTarget<E> {
    Variable(Declaration<E>),
    Reference(E),
}

/// A clause of a `switch` (12.11); without a test it is `default`. `place` is that of its word.
#[cycle(tree)]
pub struct Case {
    pub test: Option<Expression>,
    pub body: Items<Statement>,
    pub place: Place,
}

/// The `catch` of a `try` (12.14).
#[derive(Drop)]
pub struct CatchOf<S> {
    pub parameter: Name,
    pub body: Items<S>,
}

/// A statement (12), or a function declaration (13). `place` is that of its first token.
#[cycle(tree)]
pub enum Statement {
    Block {
        body: Items<Statement>,
        place: Place,
    },
    Variables {
        declarations: Items<Declaration<Expression>>,
        place: Place,
    },
    Empty {
        place: Place,
    },
    Expression {
        value: Expression,
        place: Place,
    },
    If {
        condition: Expression,
        then: Boxed<Statement>,
        otherwise: Option<Boxed<Statement>>,
        place: Place,
    },
    Do {
        body: Boxed<Statement>,
        condition: Expression,
        place: Place,
    },
    While {
        condition: Expression,
        body: Boxed<Statement>,
        place: Place,
    },
    For {
        first: ForFirst<Expression>,
        condition: Option<Boxed<Expression>>,
        update: Option<Boxed<Expression>>,
        body: Boxed<Statement>,
        place: Place,
    },
    ForIn {
        target: ForTarget<Expression>,
        object: Boxed<Expression>,
        body: Boxed<Statement>,
        place: Place,
    },
    Continue {
        label: Option<Name>,
        place: Place,
    },
    Break {
        label: Option<Name>,
        place: Place,
    },
    Return {
        value: Option<Expression>,
        place: Place,
    },
    /// The label has the place of the statement.
    Labelled {
        label: Name,
        body: Boxed<Statement>,
    },
    Switch {
        value: Expression,
        cases: Items<Case>,
        place: Place,
    },
    Throw {
        value: Expression,
        place: Place,
    },
    Try {
        block: Items<Statement>,
        catch: Option<CatchOf<Statement>>,
        finally: Option<Items<Statement>>,
        place: Place,
    },
    Function(FunctionOf<Statement>),
}

/// The tree of a program (14).
#[derive(Drop)]
pub struct Tree {
    pub statements: Items<Statement>,
}

// The types of the cycle are let go by a function of their own, so that each crate that lets a tree
// go calls it, and proves no drop of its own. A list or box is let go as a whole: the proof of a
// cycle doesn't follow it into its fields.

impl Drop for Expression {
    #[cycle(tree)]
    fn drop(self) {
        match self {
            Expression::This { place: _ } | Expression::Name(_) => {}
            Expression::Literal { value: _, place: _ } => {}
            Expression::Array { elements, place: _ } => drop(elements),
            Expression::Object {
                properties,
                place: _,
            } => drop(properties),
            Expression::Function(function) => drop(function),
            Expression::Chain { head, suffixes } => {
                drop(head);
                drop(suffixes);
            }
            Expression::New {
                callee,
                arguments,
                place: _,
            } => {
                drop(callee);
                drop(arguments);
            }
            Expression::Unary {
                operator: _,
                operand,
                place: _,
            } => drop(operand),
            Expression::Update {
                operator: _,
                operand,
                place: _,
            } => drop(operand),
            Expression::Binary {
                first,
                operations,
                place: _,
            } => {
                drop(first);
                drop(operations);
            }
            Expression::Conditional {
                condition,
                then,
                otherwise,
                place: _,
            } => {
                drop(condition);
                drop(then);
                drop(otherwise);
            }
            Expression::Assign {
                target,
                operator: _,
                value,
                place: _,
            } => {
                drop(target);
                drop(value);
            }
            Expression::Sequence {
                first,
                others,
                place: _,
            } => {
                drop(first);
                drop(others);
            }
        }
    }
}

impl Drop for Case {
    #[cycle(tree)]
    fn drop(self) {
        let Case {
            test: _,
            body,
            place: _,
        } = self;
        drop(body);
    }
}

impl Drop for Statement {
    #[cycle(tree)]
    fn drop(self) {
        match self {
            Statement::Block { body, place: _ } => drop(body),
            Statement::Variables {
                declarations,
                place: _,
            } => drop(declarations),
            Statement::Empty { place: _ } => {}
            Statement::Expression { value: _, place: _ } => {}
            Statement::If {
                condition: _,
                then,
                otherwise,
                place: _,
            } => {
                drop(then);
                drop(otherwise);
            }
            Statement::Do {
                body,
                condition: _,
                place: _,
            } => drop(body),
            Statement::While {
                condition: _,
                body,
                place: _,
            } => drop(body),
            Statement::For {
                first,
                condition,
                update,
                body,
                place: _,
            } => {
                drop(first);
                drop(condition);
                drop(update);
                drop(body);
            }
            Statement::ForIn {
                target: _,
                object,
                body,
                place: _,
            } => {
                drop(object);
                drop(body);
            }
            Statement::Continue { label: _, place: _ } => {}
            Statement::Break { label: _, place: _ } => {}
            Statement::Return { value: _, place: _ } => {}
            Statement::Labelled { label: _, body } => drop(body),
            Statement::Switch {
                value: _,
                cases,
                place: _,
            } => drop(cases),
            Statement::Throw { value: _, place: _ } => {}
            Statement::Try {
                block,
                catch,
                finally,
                place: _,
            } => {
                drop(block);
                drop(catch);
                drop(finally);
            }
            Statement::Function(function) => drop(function),
        }
    }
}
