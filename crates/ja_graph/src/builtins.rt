//! The numbers of the built-in objects and names, and the operations that the built-in functions
//! are written with (ES3 section 15).

use crate::Class;
use ja_base::{NameId, Site};

/// The global object (15.1).
pub const GLOBAL: Site = Site(0);

/// `Object.prototype` (15.2.4).
pub const OBJECT_PROTOTYPE: Site = Site(1);

/// `Function.prototype` (15.3.4).
pub const FUNCTION_PROTOTYPE: Site = Site(2);

/// `Object` (15.2.3).
pub const OBJECT: Site = Site(3);

/// `Function` (15.3.3).
pub const FUNCTION: Site = Site(4);

/// `Array` (15.4.3).
pub const ARRAY: Site = Site(5);

/// `Array.prototype` (15.4.4).
pub const ARRAY_PROTOTYPE: Site = Site(6);

/// `String` (15.5.3).
pub const STRING: Site = Site(7);

/// `String.prototype` (15.5.4).
pub const STRING_PROTOTYPE: Site = Site(8);

/// `Boolean` (15.6.3).
pub const BOOLEAN: Site = Site(9);

/// `Boolean.prototype` (15.6.4).
pub const BOOLEAN_PROTOTYPE: Site = Site(10);

/// `Number` (15.7.3).
pub const NUMBER: Site = Site(11);

/// `Number.prototype` (15.7.4).
pub const NUMBER_PROTOTYPE: Site = Site(12);

/// `Error` (15.11.3).
pub const ERROR: Site = Site(13);

/// `Error.prototype` (15.11.4).
pub const ERROR_PROTOTYPE: Site = Site(14);

/// `EvalError` (15.11.7).
pub const EVAL_ERROR: Site = Site(15);

/// `EvalError.prototype` (15.11.7).
pub const EVAL_ERROR_PROTOTYPE: Site = Site(16);

/// `RangeError` (15.11.7).
pub const RANGE_ERROR: Site = Site(17);

/// `RangeError.prototype` (15.11.7).
pub const RANGE_ERROR_PROTOTYPE: Site = Site(18);

/// `ReferenceError` (15.11.7).
pub const REFERENCE_ERROR: Site = Site(19);

/// `ReferenceError.prototype` (15.11.7).
pub const REFERENCE_ERROR_PROTOTYPE: Site = Site(20);

/// `SyntaxError` (15.11.7).
pub const SYNTAX_ERROR: Site = Site(21);

/// `SyntaxError.prototype` (15.11.7).
pub const SYNTAX_ERROR_PROTOTYPE: Site = Site(22);

/// `TypeError` (15.11.7).
pub const TYPE_ERROR: Site = Site(23);

/// `TypeError.prototype` (15.11.7).
pub const TYPE_ERROR_PROTOTYPE: Site = Site(24);

/// `URIError` (15.11.7).
pub const URI_ERROR: Site = Site(25);

/// `URIError.prototype` (15.11.7).
pub const URI_ERROR_PROTOTYPE: Site = Site(26);

/// `Math` (15.8).
pub const MATH: Site = Site(27);

/// `parseInt` (15.1.2.2).
pub const PARSE_INT: Site = Site(28);

/// `parseFloat` (15.1.2.3).
pub const PARSE_FLOAT: Site = Site(29);

/// `isNaN` (15.1.2.4).
pub const IS_NAN: Site = Site(30);

/// `isFinite` (15.1.2.5).
pub const IS_FINITE: Site = Site(31);

/// `Object.prototype.toString` (15.2.4.2).
pub const OBJECT_TO_STRING: Site = Site(32);

/// `Object.prototype.valueOf` (15.2.4.4).
pub const OBJECT_VALUE_OF: Site = Site(33);

/// `Object.prototype.hasOwnProperty` (15.2.4.5).
pub const HAS_OWN_PROPERTY: Site = Site(34);

/// `Object.prototype.isPrototypeOf` (15.2.4.6).
pub const IS_PROTOTYPE_OF: Site = Site(35);

/// `Object.prototype.propertyIsEnumerable` (15.2.4.7).
pub const PROPERTY_IS_ENUMERABLE: Site = Site(36);

/// `Function.prototype.apply` (15.3.4.3).
pub const APPLY: Site = Site(37);

/// `Function.prototype.call` (15.3.4.4).
pub const CALL: Site = Site(38);

/// `Array.prototype.toString` (15.4.4.2).
pub const ARRAY_TO_STRING: Site = Site(39);

/// `Array.prototype.concat` (15.4.4.4).
pub const ARRAY_CONCAT: Site = Site(40);

/// `Array.prototype.join` (15.4.4.5).
pub const ARRAY_JOIN: Site = Site(41);

/// `Array.prototype.pop` (15.4.4.6).
pub const ARRAY_POP: Site = Site(42);

/// `Array.prototype.push` (15.4.4.7).
pub const ARRAY_PUSH: Site = Site(43);

/// `Array.prototype.reverse` (15.4.4.8).
pub const ARRAY_REVERSE: Site = Site(44);

/// `Array.prototype.shift` (15.4.4.9).
pub const ARRAY_SHIFT: Site = Site(45);

/// `Array.prototype.slice` (15.4.4.10).
pub const ARRAY_SLICE: Site = Site(46);

/// `Array.prototype.splice` (15.4.4.12).
pub const ARRAY_SPLICE: Site = Site(47);

/// `Array.prototype.unshift` (15.4.4.13).
pub const ARRAY_UNSHIFT: Site = Site(48);

/// `String.fromCharCode` (15.5.3.2).
pub const FROM_CHAR_CODE: Site = Site(49);

/// `String.prototype.toString` (15.5.4.2).
pub const STRING_TO_STRING: Site = Site(50);

/// `String.prototype.valueOf` (15.5.4.3).
pub const STRING_VALUE_OF: Site = Site(51);

/// `String.prototype.charAt` (15.5.4.4).
pub const CHAR_AT: Site = Site(52);

/// `String.prototype.charCodeAt` (15.5.4.5).
pub const CHAR_CODE_AT: Site = Site(53);

/// `String.prototype.concat` (15.5.4.6).
pub const STRING_CONCAT: Site = Site(54);

/// `String.prototype.indexOf` (15.5.4.7).
pub const INDEX_OF: Site = Site(55);

/// `String.prototype.lastIndexOf` (15.5.4.8).
pub const LAST_INDEX_OF: Site = Site(56);

/// `String.prototype.slice` (15.5.4.13).
pub const STRING_SLICE: Site = Site(57);

/// `String.prototype.split` (15.5.4.14).
pub const SPLIT: Site = Site(58);

/// `String.prototype.substring` (15.5.4.15).
pub const SUBSTRING: Site = Site(59);

/// `String.prototype.toLowerCase` (15.5.4.16).
pub const TO_LOWER_CASE: Site = Site(60);

/// `String.prototype.toUpperCase` (15.5.4.18).
pub const TO_UPPER_CASE: Site = Site(61);

/// `Boolean.prototype.toString` (15.6.4.2).
pub const BOOLEAN_TO_STRING: Site = Site(62);

/// `Boolean.prototype.valueOf` (15.6.4.3).
pub const BOOLEAN_VALUE_OF: Site = Site(63);

/// `Number.prototype.toString` (15.7.4.2).
pub const NUMBER_TO_STRING: Site = Site(64);

/// `Number.prototype.valueOf` (15.7.4.4).
pub const NUMBER_VALUE_OF: Site = Site(65);

/// `Error.prototype.toString` (15.11.4.4).
pub const ERROR_TO_STRING: Site = Site(66);

/// `Math.abs` (15.8.2.1).
pub const MATH_ABS: Site = Site(67);

/// `Math.ceil` (15.8.2.6).
pub const MATH_CEIL: Site = Site(68);

/// `Math.floor` (15.8.2.9).
pub const MATH_FLOOR: Site = Site(69);

/// `Math.round` (15.8.2.15).
pub const MATH_ROUND: Site = Site(70);

/// `Math.max` (15.8.2.11).
pub const MATH_MAX: Site = Site(71);

/// `Math.min` (15.8.2.12).
pub const MATH_MIN: Site = Site(72);

/// `Math.pow` (15.8.2.13).
pub const MATH_POW: Site = Site(73);

/// The classes of the built-in objects, by their sites.
pub const BUILTIN_CLASSES: [Class; 74] = [
    Class::Object,
    Class::Object,
    Class::Function,
    Class::Function,
    Class::Function,
    Class::Function,
    Class::Array,
    Class::Function,
    Class::String,
    Class::Function,
    Class::Boolean,
    Class::Function,
    Class::Number,
    Class::Function,
    Class::Error,
    Class::Function,
    Class::Error,
    Class::Function,
    Class::Error,
    Class::Function,
    Class::Error,
    Class::Function,
    Class::Error,
    Class::Function,
    Class::Error,
    Class::Function,
    Class::Error,
    Class::Math,
    Class::Function,
    Class::Function,
    Class::Function,
    Class::Function,
    Class::Function,
    Class::Function,
    Class::Function,
    Class::Function,
    Class::Function,
    Class::Function,
    Class::Function,
    Class::Function,
    Class::Function,
    Class::Function,
    Class::Function,
    Class::Function,
    Class::Function,
    Class::Function,
    Class::Function,
    Class::Function,
    Class::Function,
    Class::Function,
    Class::Function,
    Class::Function,
    Class::Function,
    Class::Function,
    Class::Function,
    Class::Function,
    Class::Function,
    Class::Function,
    Class::Function,
    Class::Function,
    Class::Function,
    Class::Function,
    Class::Function,
    Class::Function,
    Class::Function,
    Class::Function,
    Class::Function,
    Class::Function,
    Class::Function,
    Class::Function,
    Class::Function,
    Class::Function,
    Class::Function,
    Class::Function,
];

/// The names of the built-in objects' properties, in the order of the standard; then those that
/// other objects have.
pub const BUILTIN_NAMES: [&[u8]; 104] = [
    // of the global object (15.1)
    b"NaN",
    b"undefined",
    b"parseInt",
    b"parseFloat",
    b"isNaN",
    b"isFinite",
    b"Object",
    b"Function",
    b"Array",
    b"String",
    b"Boolean",
    b"Number",
    b"Error",
    b"EvalError",
    b"RangeError",
    b"ReferenceError",
    b"SyntaxError",
    b"TypeError",
    b"URIError",
    b"Math",
    b"Infinity",
    b"eval",
    b"decodeURI",
    b"decodeURIComponent",
    b"encodeURI",
    b"encodeURIComponent",
    b"escape",
    b"unescape",
    b"Date",
    b"RegExp",
    // of constructors (15.2.3)
    b"prototype",
    // of `Object.prototype` (15.2.4)
    b"constructor",
    b"toString",
    b"valueOf",
    b"hasOwnProperty",
    b"isPrototypeOf",
    b"propertyIsEnumerable",
    b"toLocaleString",
    // of `Function.prototype` (15.3.4)
    b"apply",
    b"call",
    // of `Array.prototype` (15.4.4)
    b"concat",
    b"join",
    b"pop",
    b"push",
    b"reverse",
    b"shift",
    b"slice",
    b"splice",
    b"unshift",
    b"sort",
    // of `String` (15.5.3)
    b"fromCharCode",
    // of `String.prototype` (15.5.4)
    b"charAt",
    b"charCodeAt",
    b"indexOf",
    b"lastIndexOf",
    b"split",
    b"substring",
    b"toLowerCase",
    b"toUpperCase",
    b"substr",
    b"match",
    b"replace",
    b"search",
    b"localeCompare",
    b"toLocaleLowerCase",
    b"toLocaleUpperCase",
    // of `Number` (15.7.3)
    b"MAX_VALUE",
    b"MIN_VALUE",
    b"POSITIVE_INFINITY",
    b"NEGATIVE_INFINITY",
    // of `Number.prototype` (15.7.4)
    b"toFixed",
    b"toExponential",
    b"toPrecision",
    // of the prototypes of errors (15.11.4)
    b"name",
    b"message",
    // of `Math` (15.8)
    b"abs",
    b"ceil",
    b"floor",
    b"round",
    b"max",
    b"min",
    b"pow",
    b"E",
    b"LN10",
    b"LN2",
    b"LOG2E",
    b"LOG10E",
    b"PI",
    b"SQRT1_2",
    b"SQRT2",
    b"acos",
    b"asin",
    b"atan",
    b"atan2",
    b"cos",
    b"exp",
    b"log",
    b"random",
    b"sin",
    b"sqrt",
    b"tan",
    // of arrays, texts and arguments objects (10.1.8)
    b"length",
    b"callee",
    b"arguments",
];

/// `name`, of the prototypes of errors.
pub const NAME: NameId = NameId(73);

/// `message`, of errors and their prototypes.
pub const MESSAGE: NameId = NameId(74);

/// `length`.
pub const LENGTH: NameId = NameId(101);

/// `callee`.
pub const CALLEE: NameId = NameId(102);

/// `arguments`.
pub const ARGUMENTS: NameId = NameId(103);

/// The operations of the built-in functions, by their numbers: the name under which the texts of
/// these functions call each, and how many arguments it takes.
pub const INTRINSICS: [(&[u8], u32); 18] = [
    // whether a value is an object
    (b"$is_object", 1),
    // the class of an object, as a text (8.6.2)
    (b"$class", 1),
    // the internal value of an object (8.6.2)
    (b"$value", 1),
    // whether an object has a property of its own, by its name
    (b"$has_own", 2),
    // .. that isn't DontEnum (8.6.1)
    (b"$is_enumerable", 2),
    // whether an object is on the prototype chain behind a value
    (b"$inherits", 2),
    // whether a value is an array or an arguments object
    (b"$has_elements", 1),
    // the digits of a number, by a radix from 2 to 36 (15.7.4.2)
    (b"$digits", 2),
    // how many units a text has (15.5.5.1)
    (b"$size", 1),
    // the unit at a place, or NaN (15.5.4.5)
    (b"$unit", 2),
    // the units from a place on and before another (15.5.4.13)
    (b"$part", 3),
    // the text of one unit (15.5.3.2)
    (b"$character", 1),
    // the first place from one on where a text stands (15.5.4.7)
    (b"$index_of", 3),
    // the last place not behind one where it stands (15.5.4.8)
    (b"$last_index_of", 3),
    // a text with small letters (15.5.4.16), and with great ones (15.5.4.18)
    (b"$lower", 1),
    (b"$upper", 1),
    // the number at the front of a text (15.1.2.2, 15.1.2.3)
    (b"$parse_int", 2),
    (b"$parse_float", 1),
];
