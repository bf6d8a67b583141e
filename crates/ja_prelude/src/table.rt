//! The built-in objects with their properties (ES3 section 15). A property whose value is out of
//! the profile is a row.

use self::Constant::{Empty, ErrorName, False, NaN, Number, Undefined};
use self::Content::{Object, Prim, Row};
use self::Role::{Constructor, Function, Plain, Wrapper};
use ja_base::Site;
use ja_graph::{
    ALL_ATTRS, APPLY, ARRAY, ARRAY_CONCAT, ARRAY_JOIN, ARRAY_POP, ARRAY_PROTOTYPE, ARRAY_PUSH,
    ARRAY_REVERSE, ARRAY_SHIFT, ARRAY_SLICE, ARRAY_SPLICE, ARRAY_TO_STRING, ARRAY_UNSHIFT, Attrs,
    BOOLEAN, BOOLEAN_PROTOTYPE, BOOLEAN_TO_STRING, BOOLEAN_VALUE_OF, CALL, CHAR_AT, CHAR_CODE_AT,
    DONT_ENUM, ERROR, ERROR_PROTOTYPE, ERROR_TO_STRING, EVAL_ERROR, EVAL_ERROR_PROTOTYPE,
    ErrorKind, FROM_CHAR_CODE, FUNCTION, FUNCTION_PROTOTYPE, GLOBAL, HAS_OWN_PROPERTY, INDEX_OF,
    IS_FINITE, IS_NAN, IS_PROTOTYPE_OF, KEPT_HIDDEN, LAST_INDEX_OF, MATH, MATH_ABS, MATH_CEIL,
    MATH_FLOOR, MATH_MAX, MATH_MIN, MATH_POW, MATH_ROUND, NUMBER, NUMBER_PROTOTYPE,
    NUMBER_TO_STRING, NUMBER_VALUE_OF, OBJECT, OBJECT_PROTOTYPE, OBJECT_TO_STRING, OBJECT_VALUE_OF,
    PARSE_FLOAT, PARSE_INT, PROPERTY_IS_ENUMERABLE, RANGE_ERROR, RANGE_ERROR_PROTOTYPE,
    REFERENCE_ERROR, REFERENCE_ERROR_PROTOTYPE, SPLIT, STRING, STRING_CONCAT, STRING_PROTOTYPE,
    STRING_SLICE, STRING_TO_STRING, STRING_VALUE_OF, SUBSTRING, SYNTAX_ERROR,
    SYNTAX_ERROR_PROTOTYPE, TO_LOWER_CASE, TO_UPPER_CASE, TYPE_ERROR, TYPE_ERROR_PROTOTYPE,
    URI_ERROR, URI_ERROR_PROTOTYPE,
};

/// A primitive value of the table.
#[derive(Clone, Copy)]
pub enum Constant {
    Undefined,
    NaN,
    False,
    /// A whole number.
    Number(u8),
    /// The empty text.
    Empty,
    /// The name of the errors of a kind, as a text.
    ErrorName(ErrorKind),
}

/// What a property of the table has.
#[derive(Clone, Copy)]
pub enum Content {
    Prim(Constant),
    Object(Site),
    Row,
}

/// A property of the table: its name, what it has, and its attributes.
pub type Entry = (&'static [u8], Content, Attrs);

/// What an object of the table has of the internal properties (8.6.2) besides its class and its
/// prototype. A function is told by its number among those of `texts.rt`.
#[derive(Clone, Copy)]
pub enum Role {
    /// No more.
    Plain,
    /// `[[Value]]`.
    Wrapper(Constant),
    /// `[[Call]]`, and as `[[Scope]]` the global object.
    Function(u8),
    /// `[[Call]]` and `[[Construct]]`, and as `[[Scope]]` the global object.
    Constructor(u8, u8),
}

/// An object of the table: its site, its prototype, and its role.
#[derive(Clone, Copy)]
pub struct BuiltinObject {
    pub site: Site,
    pub prototype: Option<Site>,
    pub role: Role,
}

/// A row of the table: the name under which reports print an object, the object, and its
/// properties.
pub type TableRow = (&'static [u8], BuiltinObject, &'static [Entry]);

/// The built-in objects, each behind its prototype and its scope. These are the global object, the
/// prototypes, the constructors and `Math`.
pub const OBJECTS: [TableRow; 28] = [
    // 15.2.4
    (
        b"Object.prototype",
        BuiltinObject {
            site: OBJECT_PROTOTYPE,
            prototype: None,
            role: Plain,
        },
        &[
            (b"constructor", Object(OBJECT), DONT_ENUM),
            (b"toString", Object(OBJECT_TO_STRING), DONT_ENUM),
            (b"valueOf", Object(OBJECT_VALUE_OF), DONT_ENUM),
            (b"hasOwnProperty", Object(HAS_OWN_PROPERTY), DONT_ENUM),
            (b"isPrototypeOf", Object(IS_PROTOTYPE_OF), DONT_ENUM),
            (
                b"propertyIsEnumerable",
                Object(PROPERTY_IS_ENUMERABLE),
                DONT_ENUM,
            ),
            (b"toLocaleString", Row, DONT_ENUM),
        ],
    ),
    // 15.1
    (
        b"global",
        BuiltinObject {
            site: GLOBAL,
            prototype: Some(OBJECT_PROTOTYPE),
            role: Plain,
        },
        &[
            (b"NaN", Prim(NaN), KEPT_HIDDEN),
            (b"undefined", Prim(Undefined), KEPT_HIDDEN),
            (b"parseInt", Object(PARSE_INT), DONT_ENUM),
            (b"parseFloat", Object(PARSE_FLOAT), DONT_ENUM),
            (b"isNaN", Object(IS_NAN), DONT_ENUM),
            (b"isFinite", Object(IS_FINITE), DONT_ENUM),
            (b"Object", Object(OBJECT), DONT_ENUM),
            (b"Function", Object(FUNCTION), DONT_ENUM),
            (b"Array", Object(ARRAY), DONT_ENUM),
            (b"String", Object(STRING), DONT_ENUM),
            (b"Boolean", Object(BOOLEAN), DONT_ENUM),
            (b"Number", Object(NUMBER), DONT_ENUM),
            (b"Error", Object(ERROR), DONT_ENUM),
            (b"EvalError", Object(EVAL_ERROR), DONT_ENUM),
            (b"RangeError", Object(RANGE_ERROR), DONT_ENUM),
            (b"ReferenceError", Object(REFERENCE_ERROR), DONT_ENUM),
            (b"SyntaxError", Object(SYNTAX_ERROR), DONT_ENUM),
            (b"TypeError", Object(TYPE_ERROR), DONT_ENUM),
            (b"URIError", Object(URI_ERROR), DONT_ENUM),
            (b"Math", Object(MATH), DONT_ENUM),
            (b"Infinity", Row, KEPT_HIDDEN),
            (b"eval", Row, DONT_ENUM),
            (b"decodeURI", Row, DONT_ENUM),
            (b"decodeURIComponent", Row, DONT_ENUM),
            (b"encodeURI", Row, DONT_ENUM),
            (b"encodeURIComponent", Row, DONT_ENUM),
            (b"escape", Row, DONT_ENUM),
            (b"unescape", Row, DONT_ENUM),
            (b"Date", Row, DONT_ENUM),
            (b"RegExp", Row, DONT_ENUM),
        ],
    ),
    // 15.3.4
    (
        b"Function.prototype",
        BuiltinObject {
            site: FUNCTION_PROTOTYPE,
            prototype: Some(OBJECT_PROTOTYPE),
            role: Function(0),
        },
        &[
            (b"length", Prim(Number(0)), ALL_ATTRS),
            (b"constructor", Object(FUNCTION), DONT_ENUM),
            (b"apply", Object(APPLY), DONT_ENUM),
            (b"call", Object(CALL), DONT_ENUM),
            (b"toString", Row, DONT_ENUM),
        ],
    ),
    // 15.2.1, 15.2.2, 15.2.3
    (
        b"Object",
        BuiltinObject {
            site: OBJECT,
            prototype: Some(FUNCTION_PROTOTYPE),
            role: Constructor(1, 2),
        },
        &[
            (b"length", Prim(Number(1)), ALL_ATTRS),
            (b"prototype", Object(OBJECT_PROTOTYPE), ALL_ATTRS),
        ],
    ),
    // 15.3.1, 15.3.2, 15.3.3
    (
        b"Function",
        BuiltinObject {
            site: FUNCTION,
            prototype: Some(FUNCTION_PROTOTYPE),
            role: Constructor(3, 4),
        },
        &[
            (b"length", Prim(Number(1)), ALL_ATTRS),
            (b"prototype", Object(FUNCTION_PROTOTYPE), ALL_ATTRS),
        ],
    ),
    // 15.4.1, 15.4.2, 15.4.3
    (
        b"Array",
        BuiltinObject {
            site: ARRAY,
            prototype: Some(FUNCTION_PROTOTYPE),
            role: Constructor(5, 6),
        },
        &[
            (b"length", Prim(Number(1)), ALL_ATTRS),
            (b"prototype", Object(ARRAY_PROTOTYPE), ALL_ATTRS),
        ],
    ),
    // 15.4.4
    (
        b"Array.prototype",
        BuiltinObject {
            site: ARRAY_PROTOTYPE,
            prototype: Some(OBJECT_PROTOTYPE),
            role: Plain,
        },
        &[
            (b"length", Prim(Number(0)), KEPT_HIDDEN),
            (b"constructor", Object(ARRAY), DONT_ENUM),
            (b"toString", Object(ARRAY_TO_STRING), DONT_ENUM),
            (b"concat", Object(ARRAY_CONCAT), DONT_ENUM),
            (b"join", Object(ARRAY_JOIN), DONT_ENUM),
            (b"pop", Object(ARRAY_POP), DONT_ENUM),
            (b"push", Object(ARRAY_PUSH), DONT_ENUM),
            (b"reverse", Object(ARRAY_REVERSE), DONT_ENUM),
            (b"shift", Object(ARRAY_SHIFT), DONT_ENUM),
            (b"slice", Object(ARRAY_SLICE), DONT_ENUM),
            (b"splice", Object(ARRAY_SPLICE), DONT_ENUM),
            (b"unshift", Object(ARRAY_UNSHIFT), DONT_ENUM),
            (b"toLocaleString", Row, DONT_ENUM),
            (b"sort", Row, DONT_ENUM),
        ],
    ),
    // 15.5.1, 15.5.2, 15.5.3
    (
        b"String",
        BuiltinObject {
            site: STRING,
            prototype: Some(FUNCTION_PROTOTYPE),
            role: Constructor(7, 8),
        },
        &[
            (b"length", Prim(Number(1)), ALL_ATTRS),
            (b"fromCharCode", Object(FROM_CHAR_CODE), DONT_ENUM),
            (b"prototype", Object(STRING_PROTOTYPE), ALL_ATTRS),
        ],
    ),
    // 15.5.4
    (
        b"String.prototype",
        BuiltinObject {
            site: STRING_PROTOTYPE,
            prototype: Some(OBJECT_PROTOTYPE),
            role: Wrapper(Empty),
        },
        &[
            (b"length", Prim(Number(0)), ALL_ATTRS),
            (b"constructor", Object(STRING), DONT_ENUM),
            (b"toString", Object(STRING_TO_STRING), DONT_ENUM),
            (b"valueOf", Object(STRING_VALUE_OF), DONT_ENUM),
            (b"charAt", Object(CHAR_AT), DONT_ENUM),
            (b"charCodeAt", Object(CHAR_CODE_AT), DONT_ENUM),
            (b"concat", Object(STRING_CONCAT), DONT_ENUM),
            (b"indexOf", Object(INDEX_OF), DONT_ENUM),
            (b"lastIndexOf", Object(LAST_INDEX_OF), DONT_ENUM),
            (b"slice", Object(STRING_SLICE), DONT_ENUM),
            (b"split", Object(SPLIT), DONT_ENUM),
            (b"substring", Object(SUBSTRING), DONT_ENUM),
            (b"toLowerCase", Object(TO_LOWER_CASE), DONT_ENUM),
            (b"toUpperCase", Object(TO_UPPER_CASE), DONT_ENUM),
            (b"substr", Row, DONT_ENUM),
            (b"match", Row, DONT_ENUM),
            (b"replace", Row, DONT_ENUM),
            (b"search", Row, DONT_ENUM),
            (b"localeCompare", Row, DONT_ENUM),
            (b"toLocaleLowerCase", Row, DONT_ENUM),
            (b"toLocaleUpperCase", Row, DONT_ENUM),
        ],
    ),
    // 15.6.1, 15.6.2, 15.6.3
    (
        b"Boolean",
        BuiltinObject {
            site: BOOLEAN,
            prototype: Some(FUNCTION_PROTOTYPE),
            role: Constructor(9, 10),
        },
        &[
            (b"length", Prim(Number(1)), ALL_ATTRS),
            (b"prototype", Object(BOOLEAN_PROTOTYPE), ALL_ATTRS),
        ],
    ),
    // 15.6.4
    (
        b"Boolean.prototype",
        BuiltinObject {
            site: BOOLEAN_PROTOTYPE,
            prototype: Some(OBJECT_PROTOTYPE),
            role: Wrapper(False),
        },
        &[
            (b"constructor", Object(BOOLEAN), DONT_ENUM),
            (b"toString", Object(BOOLEAN_TO_STRING), DONT_ENUM),
            (b"valueOf", Object(BOOLEAN_VALUE_OF), DONT_ENUM),
        ],
    ),
    // 15.7.1, 15.7.2, 15.7.3
    (
        b"Number",
        BuiltinObject {
            site: NUMBER,
            prototype: Some(FUNCTION_PROTOTYPE),
            role: Constructor(11, 12),
        },
        &[
            (b"length", Prim(Number(1)), ALL_ATTRS),
            (b"prototype", Object(NUMBER_PROTOTYPE), ALL_ATTRS),
            (b"NaN", Prim(NaN), ALL_ATTRS),
            (b"MAX_VALUE", Row, ALL_ATTRS),
            (b"MIN_VALUE", Row, ALL_ATTRS),
            (b"POSITIVE_INFINITY", Row, ALL_ATTRS),
            (b"NEGATIVE_INFINITY", Row, ALL_ATTRS),
        ],
    ),
    // 15.7.4
    (
        b"Number.prototype",
        BuiltinObject {
            site: NUMBER_PROTOTYPE,
            prototype: Some(OBJECT_PROTOTYPE),
            role: Wrapper(Number(0)),
        },
        &[
            (b"constructor", Object(NUMBER), DONT_ENUM),
            (b"toString", Object(NUMBER_TO_STRING), DONT_ENUM),
            (b"valueOf", Object(NUMBER_VALUE_OF), DONT_ENUM),
            (b"toLocaleString", Row, DONT_ENUM),
            (b"toFixed", Row, DONT_ENUM),
            (b"toExponential", Row, DONT_ENUM),
            (b"toPrecision", Row, DONT_ENUM),
        ],
    ),
    // 15.11.1, 15.11.2, 15.11.3
    (
        b"Error",
        BuiltinObject {
            site: ERROR,
            prototype: Some(FUNCTION_PROTOTYPE),
            role: Constructor(13, 14),
        },
        &[
            (b"length", Prim(Number(1)), ALL_ATTRS),
            (b"prototype", Object(ERROR_PROTOTYPE), ALL_ATTRS),
        ],
    ),
    // 15.11.4
    (
        b"Error.prototype",
        BuiltinObject {
            site: ERROR_PROTOTYPE,
            prototype: Some(OBJECT_PROTOTYPE),
            role: Plain,
        },
        &[
            (b"constructor", Object(ERROR), DONT_ENUM),
            (b"name", Prim(ErrorName(ErrorKind::Error)), DONT_ENUM),
            (b"message", Prim(Empty), DONT_ENUM),
            (b"toString", Object(ERROR_TO_STRING), DONT_ENUM),
        ],
    ),
    // 15.11.7
    (
        b"EvalError",
        BuiltinObject {
            site: EVAL_ERROR,
            prototype: Some(FUNCTION_PROTOTYPE),
            role: Constructor(15, 16),
        },
        &[
            (b"length", Prim(Number(1)), ALL_ATTRS),
            (b"prototype", Object(EVAL_ERROR_PROTOTYPE), ALL_ATTRS),
        ],
    ),
    // 15.11.7
    (
        b"EvalError.prototype",
        BuiltinObject {
            site: EVAL_ERROR_PROTOTYPE,
            prototype: Some(ERROR_PROTOTYPE),
            role: Plain,
        },
        &[
            (b"constructor", Object(EVAL_ERROR), DONT_ENUM),
            (b"name", Prim(ErrorName(ErrorKind::EvalError)), DONT_ENUM),
            (b"message", Prim(Empty), DONT_ENUM),
        ],
    ),
    // 15.11.7
    (
        b"RangeError",
        BuiltinObject {
            site: RANGE_ERROR,
            prototype: Some(FUNCTION_PROTOTYPE),
            role: Constructor(17, 18),
        },
        &[
            (b"length", Prim(Number(1)), ALL_ATTRS),
            (b"prototype", Object(RANGE_ERROR_PROTOTYPE), ALL_ATTRS),
        ],
    ),
    // 15.11.7
    (
        b"RangeError.prototype",
        BuiltinObject {
            site: RANGE_ERROR_PROTOTYPE,
            prototype: Some(ERROR_PROTOTYPE),
            role: Plain,
        },
        &[
            (b"constructor", Object(RANGE_ERROR), DONT_ENUM),
            (b"name", Prim(ErrorName(ErrorKind::RangeError)), DONT_ENUM),
            (b"message", Prim(Empty), DONT_ENUM),
        ],
    ),
    // 15.11.7
    (
        b"ReferenceError",
        BuiltinObject {
            site: REFERENCE_ERROR,
            prototype: Some(FUNCTION_PROTOTYPE),
            role: Constructor(19, 20),
        },
        &[
            (b"length", Prim(Number(1)), ALL_ATTRS),
            (b"prototype", Object(REFERENCE_ERROR_PROTOTYPE), ALL_ATTRS),
        ],
    ),
    // 15.11.7
    (
        b"ReferenceError.prototype",
        BuiltinObject {
            site: REFERENCE_ERROR_PROTOTYPE,
            prototype: Some(ERROR_PROTOTYPE),
            role: Plain,
        },
        &[
            (b"constructor", Object(REFERENCE_ERROR), DONT_ENUM),
            (
                b"name",
                Prim(ErrorName(ErrorKind::ReferenceError)),
                DONT_ENUM,
            ),
            (b"message", Prim(Empty), DONT_ENUM),
        ],
    ),
    // 15.11.7
    (
        b"SyntaxError",
        BuiltinObject {
            site: SYNTAX_ERROR,
            prototype: Some(FUNCTION_PROTOTYPE),
            role: Constructor(21, 22),
        },
        &[
            (b"length", Prim(Number(1)), ALL_ATTRS),
            (b"prototype", Object(SYNTAX_ERROR_PROTOTYPE), ALL_ATTRS),
        ],
    ),
    // 15.11.7
    (
        b"SyntaxError.prototype",
        BuiltinObject {
            site: SYNTAX_ERROR_PROTOTYPE,
            prototype: Some(ERROR_PROTOTYPE),
            role: Plain,
        },
        &[
            (b"constructor", Object(SYNTAX_ERROR), DONT_ENUM),
            (b"name", Prim(ErrorName(ErrorKind::SyntaxError)), DONT_ENUM),
            (b"message", Prim(Empty), DONT_ENUM),
        ],
    ),
    // 15.11.7
    (
        b"TypeError",
        BuiltinObject {
            site: TYPE_ERROR,
            prototype: Some(FUNCTION_PROTOTYPE),
            role: Constructor(23, 24),
        },
        &[
            (b"length", Prim(Number(1)), ALL_ATTRS),
            (b"prototype", Object(TYPE_ERROR_PROTOTYPE), ALL_ATTRS),
        ],
    ),
    // 15.11.7
    (
        b"TypeError.prototype",
        BuiltinObject {
            site: TYPE_ERROR_PROTOTYPE,
            prototype: Some(ERROR_PROTOTYPE),
            role: Plain,
        },
        &[
            (b"constructor", Object(TYPE_ERROR), DONT_ENUM),
            (b"name", Prim(ErrorName(ErrorKind::TypeError)), DONT_ENUM),
            (b"message", Prim(Empty), DONT_ENUM),
        ],
    ),
    // 15.11.7
    (
        b"URIError",
        BuiltinObject {
            site: URI_ERROR,
            prototype: Some(FUNCTION_PROTOTYPE),
            role: Constructor(25, 26),
        },
        &[
            (b"length", Prim(Number(1)), ALL_ATTRS),
            (b"prototype", Object(URI_ERROR_PROTOTYPE), ALL_ATTRS),
        ],
    ),
    // 15.11.7
    (
        b"URIError.prototype",
        BuiltinObject {
            site: URI_ERROR_PROTOTYPE,
            prototype: Some(ERROR_PROTOTYPE),
            role: Plain,
        },
        &[
            (b"constructor", Object(URI_ERROR), DONT_ENUM),
            (b"name", Prim(ErrorName(ErrorKind::URIError)), DONT_ENUM),
            (b"message", Prim(Empty), DONT_ENUM),
        ],
    ),
    // 15.8
    (
        b"Math",
        BuiltinObject {
            site: MATH,
            prototype: Some(OBJECT_PROTOTYPE),
            role: Plain,
        },
        &[
            (b"abs", Object(MATH_ABS), DONT_ENUM),
            (b"ceil", Object(MATH_CEIL), DONT_ENUM),
            (b"floor", Object(MATH_FLOOR), DONT_ENUM),
            (b"round", Object(MATH_ROUND), DONT_ENUM),
            (b"max", Object(MATH_MAX), DONT_ENUM),
            (b"min", Object(MATH_MIN), DONT_ENUM),
            (b"pow", Object(MATH_POW), DONT_ENUM),
            (b"E", Row, ALL_ATTRS),
            (b"LN10", Row, ALL_ATTRS),
            (b"LN2", Row, ALL_ATTRS),
            (b"LOG2E", Row, ALL_ATTRS),
            (b"LOG10E", Row, ALL_ATTRS),
            (b"PI", Row, ALL_ATTRS),
            (b"SQRT1_2", Row, ALL_ATTRS),
            (b"SQRT2", Row, ALL_ATTRS),
            (b"acos", Row, DONT_ENUM),
            (b"asin", Row, DONT_ENUM),
            (b"atan", Row, DONT_ENUM),
            (b"atan2", Row, DONT_ENUM),
            (b"cos", Row, DONT_ENUM),
            (b"exp", Row, DONT_ENUM),
            (b"log", Row, DONT_ENUM),
            (b"random", Row, DONT_ENUM),
            (b"sin", Row, DONT_ENUM),
            (b"sqrt", Row, DONT_ENUM),
            (b"tan", Row, DONT_ENUM),
        ],
    ),
];

/// The other functions, behind them.
pub const FUNCTION_OBJECTS: [TableRow; 46] = [
    // 15.1.2.2
    (
        b"parseInt",
        BuiltinObject {
            site: PARSE_INT,
            prototype: Some(FUNCTION_PROTOTYPE),
            role: Function(27),
        },
        &[(b"length", Prim(Number(2)), ALL_ATTRS)],
    ),
    // 15.1.2.3
    (
        b"parseFloat",
        BuiltinObject {
            site: PARSE_FLOAT,
            prototype: Some(FUNCTION_PROTOTYPE),
            role: Function(28),
        },
        &[(b"length", Prim(Number(1)), ALL_ATTRS)],
    ),
    // 15.1.2.4
    (
        b"isNaN",
        BuiltinObject {
            site: IS_NAN,
            prototype: Some(FUNCTION_PROTOTYPE),
            role: Function(29),
        },
        &[(b"length", Prim(Number(1)), ALL_ATTRS)],
    ),
    // 15.1.2.5
    (
        b"isFinite",
        BuiltinObject {
            site: IS_FINITE,
            prototype: Some(FUNCTION_PROTOTYPE),
            role: Function(30),
        },
        &[(b"length", Prim(Number(1)), ALL_ATTRS)],
    ),
    // 15.2.4.2
    (
        b"Object.prototype.toString",
        BuiltinObject {
            site: OBJECT_TO_STRING,
            prototype: Some(FUNCTION_PROTOTYPE),
            role: Function(31),
        },
        &[(b"length", Prim(Number(0)), ALL_ATTRS)],
    ),
    // 15.2.4.4
    (
        b"Object.prototype.valueOf",
        BuiltinObject {
            site: OBJECT_VALUE_OF,
            prototype: Some(FUNCTION_PROTOTYPE),
            role: Function(32),
        },
        &[(b"length", Prim(Number(0)), ALL_ATTRS)],
    ),
    // 15.2.4.5
    (
        b"Object.prototype.hasOwnProperty",
        BuiltinObject {
            site: HAS_OWN_PROPERTY,
            prototype: Some(FUNCTION_PROTOTYPE),
            role: Function(33),
        },
        &[(b"length", Prim(Number(1)), ALL_ATTRS)],
    ),
    // 15.2.4.6
    (
        b"Object.prototype.isPrototypeOf",
        BuiltinObject {
            site: IS_PROTOTYPE_OF,
            prototype: Some(FUNCTION_PROTOTYPE),
            role: Function(34),
        },
        &[(b"length", Prim(Number(1)), ALL_ATTRS)],
    ),
    // 15.2.4.7
    (
        b"Object.prototype.propertyIsEnumerable",
        BuiltinObject {
            site: PROPERTY_IS_ENUMERABLE,
            prototype: Some(FUNCTION_PROTOTYPE),
            role: Function(35),
        },
        &[(b"length", Prim(Number(1)), ALL_ATTRS)],
    ),
    // 15.3.4.3
    (
        b"Function.prototype.apply",
        BuiltinObject {
            site: APPLY,
            prototype: Some(FUNCTION_PROTOTYPE),
            role: Function(36),
        },
        &[(b"length", Prim(Number(2)), ALL_ATTRS)],
    ),
    // 15.3.4.4
    (
        b"Function.prototype.call",
        BuiltinObject {
            site: CALL,
            prototype: Some(FUNCTION_PROTOTYPE),
            role: Function(37),
        },
        &[(b"length", Prim(Number(1)), ALL_ATTRS)],
    ),
    // 15.4.4.2
    (
        b"Array.prototype.toString",
        BuiltinObject {
            site: ARRAY_TO_STRING,
            prototype: Some(FUNCTION_PROTOTYPE),
            role: Function(38),
        },
        &[(b"length", Prim(Number(0)), ALL_ATTRS)],
    ),
    // 15.4.4.4
    (
        b"Array.prototype.concat",
        BuiltinObject {
            site: ARRAY_CONCAT,
            prototype: Some(FUNCTION_PROTOTYPE),
            role: Function(39),
        },
        &[(b"length", Prim(Number(1)), ALL_ATTRS)],
    ),
    // 15.4.4.5
    (
        b"Array.prototype.join",
        BuiltinObject {
            site: ARRAY_JOIN,
            prototype: Some(FUNCTION_PROTOTYPE),
            role: Function(40),
        },
        &[(b"length", Prim(Number(1)), ALL_ATTRS)],
    ),
    // 15.4.4.6
    (
        b"Array.prototype.pop",
        BuiltinObject {
            site: ARRAY_POP,
            prototype: Some(FUNCTION_PROTOTYPE),
            role: Function(41),
        },
        &[(b"length", Prim(Number(0)), ALL_ATTRS)],
    ),
    // 15.4.4.7
    (
        b"Array.prototype.push",
        BuiltinObject {
            site: ARRAY_PUSH,
            prototype: Some(FUNCTION_PROTOTYPE),
            role: Function(42),
        },
        &[(b"length", Prim(Number(1)), ALL_ATTRS)],
    ),
    // 15.4.4.8
    (
        b"Array.prototype.reverse",
        BuiltinObject {
            site: ARRAY_REVERSE,
            prototype: Some(FUNCTION_PROTOTYPE),
            role: Function(43),
        },
        &[(b"length", Prim(Number(0)), ALL_ATTRS)],
    ),
    // 15.4.4.9
    (
        b"Array.prototype.shift",
        BuiltinObject {
            site: ARRAY_SHIFT,
            prototype: Some(FUNCTION_PROTOTYPE),
            role: Function(44),
        },
        &[(b"length", Prim(Number(0)), ALL_ATTRS)],
    ),
    // 15.4.4.10
    (
        b"Array.prototype.slice",
        BuiltinObject {
            site: ARRAY_SLICE,
            prototype: Some(FUNCTION_PROTOTYPE),
            role: Function(45),
        },
        &[(b"length", Prim(Number(2)), ALL_ATTRS)],
    ),
    // 15.4.4.12
    (
        b"Array.prototype.splice",
        BuiltinObject {
            site: ARRAY_SPLICE,
            prototype: Some(FUNCTION_PROTOTYPE),
            role: Function(46),
        },
        &[(b"length", Prim(Number(2)), ALL_ATTRS)],
    ),
    // 15.4.4.13
    (
        b"Array.prototype.unshift",
        BuiltinObject {
            site: ARRAY_UNSHIFT,
            prototype: Some(FUNCTION_PROTOTYPE),
            role: Function(47),
        },
        &[(b"length", Prim(Number(1)), ALL_ATTRS)],
    ),
    // 15.5.3.2
    (
        b"String.fromCharCode",
        BuiltinObject {
            site: FROM_CHAR_CODE,
            prototype: Some(FUNCTION_PROTOTYPE),
            role: Function(48),
        },
        &[(b"length", Prim(Number(1)), ALL_ATTRS)],
    ),
    // 15.5.4.2
    (
        b"String.prototype.toString",
        BuiltinObject {
            site: STRING_TO_STRING,
            prototype: Some(FUNCTION_PROTOTYPE),
            role: Function(49),
        },
        &[(b"length", Prim(Number(0)), ALL_ATTRS)],
    ),
    // 15.5.4.3
    (
        b"String.prototype.valueOf",
        BuiltinObject {
            site: STRING_VALUE_OF,
            prototype: Some(FUNCTION_PROTOTYPE),
            role: Function(50),
        },
        &[(b"length", Prim(Number(0)), ALL_ATTRS)],
    ),
    // 15.5.4.4
    (
        b"String.prototype.charAt",
        BuiltinObject {
            site: CHAR_AT,
            prototype: Some(FUNCTION_PROTOTYPE),
            role: Function(51),
        },
        &[(b"length", Prim(Number(1)), ALL_ATTRS)],
    ),
    // 15.5.4.5
    (
        b"String.prototype.charCodeAt",
        BuiltinObject {
            site: CHAR_CODE_AT,
            prototype: Some(FUNCTION_PROTOTYPE),
            role: Function(52),
        },
        &[(b"length", Prim(Number(1)), ALL_ATTRS)],
    ),
    // 15.5.4.6
    (
        b"String.prototype.concat",
        BuiltinObject {
            site: STRING_CONCAT,
            prototype: Some(FUNCTION_PROTOTYPE),
            role: Function(53),
        },
        &[(b"length", Prim(Number(1)), ALL_ATTRS)],
    ),
    // 15.5.4.7
    (
        b"String.prototype.indexOf",
        BuiltinObject {
            site: INDEX_OF,
            prototype: Some(FUNCTION_PROTOTYPE),
            role: Function(54),
        },
        &[(b"length", Prim(Number(1)), ALL_ATTRS)],
    ),
    // 15.5.4.8
    (
        b"String.prototype.lastIndexOf",
        BuiltinObject {
            site: LAST_INDEX_OF,
            prototype: Some(FUNCTION_PROTOTYPE),
            role: Function(55),
        },
        &[(b"length", Prim(Number(1)), ALL_ATTRS)],
    ),
    // 15.5.4.13
    (
        b"String.prototype.slice",
        BuiltinObject {
            site: STRING_SLICE,
            prototype: Some(FUNCTION_PROTOTYPE),
            role: Function(56),
        },
        &[(b"length", Prim(Number(2)), ALL_ATTRS)],
    ),
    // 15.5.4.14
    (
        b"String.prototype.split",
        BuiltinObject {
            site: SPLIT,
            prototype: Some(FUNCTION_PROTOTYPE),
            role: Function(57),
        },
        &[(b"length", Prim(Number(2)), ALL_ATTRS)],
    ),
    // 15.5.4.15
    (
        b"String.prototype.substring",
        BuiltinObject {
            site: SUBSTRING,
            prototype: Some(FUNCTION_PROTOTYPE),
            role: Function(58),
        },
        &[(b"length", Prim(Number(2)), ALL_ATTRS)],
    ),
    // 15.5.4.16
    (
        b"String.prototype.toLowerCase",
        BuiltinObject {
            site: TO_LOWER_CASE,
            prototype: Some(FUNCTION_PROTOTYPE),
            role: Function(59),
        },
        &[(b"length", Prim(Number(0)), ALL_ATTRS)],
    ),
    // 15.5.4.18
    (
        b"String.prototype.toUpperCase",
        BuiltinObject {
            site: TO_UPPER_CASE,
            prototype: Some(FUNCTION_PROTOTYPE),
            role: Function(60),
        },
        &[(b"length", Prim(Number(0)), ALL_ATTRS)],
    ),
    // 15.6.4.2
    (
        b"Boolean.prototype.toString",
        BuiltinObject {
            site: BOOLEAN_TO_STRING,
            prototype: Some(FUNCTION_PROTOTYPE),
            role: Function(61),
        },
        &[(b"length", Prim(Number(0)), ALL_ATTRS)],
    ),
    // 15.6.4.3
    (
        b"Boolean.prototype.valueOf",
        BuiltinObject {
            site: BOOLEAN_VALUE_OF,
            prototype: Some(FUNCTION_PROTOTYPE),
            role: Function(62),
        },
        &[(b"length", Prim(Number(0)), ALL_ATTRS)],
    ),
    // 15.7.4.2
    (
        b"Number.prototype.toString",
        BuiltinObject {
            site: NUMBER_TO_STRING,
            prototype: Some(FUNCTION_PROTOTYPE),
            role: Function(63),
        },
        &[(b"length", Prim(Number(1)), ALL_ATTRS)],
    ),
    // 15.7.4.4
    (
        b"Number.prototype.valueOf",
        BuiltinObject {
            site: NUMBER_VALUE_OF,
            prototype: Some(FUNCTION_PROTOTYPE),
            role: Function(64),
        },
        &[(b"length", Prim(Number(0)), ALL_ATTRS)],
    ),
    // 15.11.4.4
    (
        b"Error.prototype.toString",
        BuiltinObject {
            site: ERROR_TO_STRING,
            prototype: Some(FUNCTION_PROTOTYPE),
            role: Function(65),
        },
        &[(b"length", Prim(Number(0)), ALL_ATTRS)],
    ),
    // 15.8.2.1
    (
        b"Math.abs",
        BuiltinObject {
            site: MATH_ABS,
            prototype: Some(FUNCTION_PROTOTYPE),
            role: Function(66),
        },
        &[(b"length", Prim(Number(1)), ALL_ATTRS)],
    ),
    // 15.8.2.6
    (
        b"Math.ceil",
        BuiltinObject {
            site: MATH_CEIL,
            prototype: Some(FUNCTION_PROTOTYPE),
            role: Function(67),
        },
        &[(b"length", Prim(Number(1)), ALL_ATTRS)],
    ),
    // 15.8.2.9
    (
        b"Math.floor",
        BuiltinObject {
            site: MATH_FLOOR,
            prototype: Some(FUNCTION_PROTOTYPE),
            role: Function(68),
        },
        &[(b"length", Prim(Number(1)), ALL_ATTRS)],
    ),
    // 15.8.2.15
    (
        b"Math.round",
        BuiltinObject {
            site: MATH_ROUND,
            prototype: Some(FUNCTION_PROTOTYPE),
            role: Function(69),
        },
        &[(b"length", Prim(Number(1)), ALL_ATTRS)],
    ),
    // 15.8.2.11
    (
        b"Math.max",
        BuiltinObject {
            site: MATH_MAX,
            prototype: Some(FUNCTION_PROTOTYPE),
            role: Function(70),
        },
        &[(b"length", Prim(Number(2)), ALL_ATTRS)],
    ),
    // 15.8.2.12
    (
        b"Math.min",
        BuiltinObject {
            site: MATH_MIN,
            prototype: Some(FUNCTION_PROTOTYPE),
            role: Function(71),
        },
        &[(b"length", Prim(Number(2)), ALL_ATTRS)],
    ),
    // 15.8.2.13
    (
        b"Math.pow",
        BuiltinObject {
            site: MATH_POW,
            prototype: Some(FUNCTION_PROTOTYPE),
            role: Function(72),
        },
        &[(b"length", Prim(Number(2)), ALL_ATTRS)],
    ),
];
