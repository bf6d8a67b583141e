//! The texts of the built-in functions (ES3 section 15), in the language with the special forms
//! that begin with `$`. Beside their own variables and `arguments` they look up no name.

/// A built-in function: its path from the global object, and its text.
pub type BuiltinFunction = (&'static [u8], &'static str);

/// How many built-in functions there are.
pub const FUNCTION_COUNT: usize = 75;

/// The number of the function that begins the default value of an object with `valueOf` (8.6.2.6).
/// Those before it are the functions of objects.
pub const VALUE_FIRST: u32 = 73;

/// The number of the function that begins it with `toString`.
pub const TEXT_FIRST: u32 = 74;

/// The built-in functions, in the order of their objects: of a constructor first what it does as a
/// function (`[[Call]]`), then what it does behind `new` (`[[Construct]]`). These are those of the
/// constructors; in the three lists together they are numbered from 0 on.
pub const CONSTRUCTORS: [BuiltinFunction; 27] = [
    // Function.prototype (15.3.4)
    (b"Function.prototype", "function prototype() {}"),
    // Object, as a function (15.2.1.1) and as a constructor (15.2.2.1)
    (
        b"Object",
        "function Object(value) { \
             if (value == null) { return {}; } \
             return $object(value); \
         }",
    ),
    (
        b"Object",
        "function Object(value) { \
             if (value != null) { return $object(value); } \
         }",
    ),
    // Function (15.3.1.1, 15.3.2.1)
    (
        b"Function",
        "function Function(value) { $stop_CodeMaker(); }",
    ),
    (
        b"Function",
        "function Function(value) { $stop_CodeMaker(); }",
    ),
    // Array, as a function and as a constructor alike (15.4.1.1, 15.4.2.1, 15.4.2.2)
    (
        b"Array",
        "function Array(length) { \
             var count = $get(arguments, 'length'), list = [], i; \
             if (count === 1 && typeof length === 'number') { \
                 $put(list, 'length', length); \
                 return list; \
             } \
             if (count > 0) { \
                 $put(list, 0, length); \
                 for (i = 1; i < count; i++) { $put(list, i, $get(arguments, i)); } \
             } \
             return list; \
         }",
    ),
    (
        b"Array",
        "function Array(length) { \
             var count = $get(arguments, 'length'), list = [], i; \
             if (count === 1 && typeof length === 'number') { \
                 $put(list, 'length', length); \
                 return list; \
             } \
             if (count > 0) { \
                 $put(list, 0, length); \
                 for (i = 1; i < count; i++) { $put(list, i, $get(arguments, i)); } \
             } \
             return list; \
         }",
    ),
    // String (15.5.1.1, 15.5.2.1)
    (
        b"String",
        "function String(value) { \
             return arguments.length === 0 ? '' : $text(value); \
         }",
    ),
    (
        b"String",
        "function String(value) { \
             return $object(arguments.length === 0 ? '' : $text(value)); \
         }",
    ),
    // Boolean (15.6.1.1, 15.6.2.1)
    (b"Boolean", "function Boolean(value) { return !!value; }"),
    (
        b"Boolean",
        "function Boolean(value) { return $object(!!value); }",
    ),
    // Number (15.7.1.1, 15.7.2.1)
    (
        b"Number",
        "function Number(value) { \
             return arguments.length === 0 ? 0 : +value; \
         }",
    ),
    (
        b"Number",
        "function Number(value) { \
             return $object(arguments.length === 0 ? 0 : +value); \
         }",
    ),
    // Error (15.11.1.1, 15.11.2.1)
    (
        b"Error",
        "function Error(message) { \
             var error = $make_Error(); \
             if (message !== void 0) { $put(error, 'message', $text(message)); } \
             return error; \
         }",
    ),
    (
        b"Error",
        "function Error(message) { \
             var error = $make_Error(); \
             if (message !== void 0) { $put(error, 'message', $text(message)); } \
             return error; \
         }",
    ),
    // EvalError (15.11.7.2, 15.11.7.4)
    (
        b"EvalError",
        "function EvalError(message) { \
             var error = $make_EvalError(); \
             if (message !== void 0) { $put(error, 'message', $text(message)); } \
             return error; \
         }",
    ),
    (
        b"EvalError",
        "function EvalError(message) { \
             var error = $make_EvalError(); \
             if (message !== void 0) { $put(error, 'message', $text(message)); } \
             return error; \
         }",
    ),
    // RangeError (15.11.7.2, 15.11.7.4)
    (
        b"RangeError",
        "function RangeError(message) { \
             var error = $make_RangeError(); \
             if (message !== void 0) { $put(error, 'message', $text(message)); } \
             return error; \
         }",
    ),
    (
        b"RangeError",
        "function RangeError(message) { \
             var error = $make_RangeError(); \
             if (message !== void 0) { $put(error, 'message', $text(message)); } \
             return error; \
         }",
    ),
    // ReferenceError (15.11.7.2, 15.11.7.4)
    (
        b"ReferenceError",
        "function ReferenceError(message) { \
             var error = $make_ReferenceError(); \
             if (message !== void 0) { $put(error, 'message', $text(message)); } \
             return error; \
         }",
    ),
    (
        b"ReferenceError",
        "function ReferenceError(message) { \
             var error = $make_ReferenceError(); \
             if (message !== void 0) { $put(error, 'message', $text(message)); } \
             return error; \
         }",
    ),
    // SyntaxError (15.11.7.2, 15.11.7.4)
    (
        b"SyntaxError",
        "function SyntaxError(message) { \
             var error = $make_SyntaxError(); \
             if (message !== void 0) { $put(error, 'message', $text(message)); } \
             return error; \
         }",
    ),
    (
        b"SyntaxError",
        "function SyntaxError(message) { \
             var error = $make_SyntaxError(); \
             if (message !== void 0) { $put(error, 'message', $text(message)); } \
             return error; \
         }",
    ),
    // TypeError (15.11.7.2, 15.11.7.4)
    (
        b"TypeError",
        "function TypeError(message) { \
             var error = $make_TypeError(); \
             if (message !== void 0) { $put(error, 'message', $text(message)); } \
             return error; \
         }",
    ),
    (
        b"TypeError",
        "function TypeError(message) { \
             var error = $make_TypeError(); \
             if (message !== void 0) { $put(error, 'message', $text(message)); } \
             return error; \
         }",
    ),
    // URIError (15.11.7.2, 15.11.7.4)
    (
        b"URIError",
        "function URIError(message) { \
             var error = $make_URIError(); \
             if (message !== void 0) { $put(error, 'message', $text(message)); } \
             return error; \
         }",
    ),
    (
        b"URIError",
        "function URIError(message) { \
             var error = $make_URIError(); \
             if (message !== void 0) { $put(error, 'message', $text(message)); } \
             return error; \
         }",
    ),
];

/// Those that read numbers, and those of objects, of functions and of arrays.
pub const OBJECT_FUNCTIONS: [BuiltinFunction; 21] = [
    // 15.1.2.2
    (
        b"parseInt",
        "function parseInt(text, radix) { return $parse_int($text(text), radix | 0); }",
    ),
    // 15.1.2.3
    (
        b"parseFloat",
        "function parseFloat(text) { return $parse_float($text(text)); }",
    ),
    // 15.1.2.4
    (
        b"isNaN",
        "function isNaN(value) { \
             value = +value; \
             return value !== value; \
         }",
    ),
    // 15.1.2.5: no value of the profile is infinite
    (
        b"isFinite",
        "function isFinite(value) { \
             value = +value; \
             return value === value; \
         }",
    ),
    // 15.2.4.2
    (
        b"Object.prototype.toString",
        "function toString() { return '[object ' + $class(this) + ']'; }",
    ),
    // 15.2.4.4
    (
        b"Object.prototype.valueOf",
        "function valueOf() { return this; }",
    ),
    // 15.2.4.5
    (
        b"Object.prototype.hasOwnProperty",
        "function hasOwnProperty(name) { return $has_own(this, $text(name)); }",
    ),
    // 15.2.4.6
    (
        b"Object.prototype.isPrototypeOf",
        "function isPrototypeOf(value) { return $inherits(value, this); }",
    ),
    // 15.2.4.7
    (
        b"Object.prototype.propertyIsEnumerable",
        "function propertyIsEnumerable(name) { \
             return $is_enumerable(this, $text(name)); \
         }",
    ),
    // 15.3.4.3
    (
        b"Function.prototype.apply",
        "function apply(receiver, values) { \
             if (receiver != null) { receiver = $object(receiver); } \
             if (typeof this !== 'function' || values == null) { return $call(this, receiver); } \
             if ($has_elements(values)) { return $spread(this, receiver, values); } \
             var error = $make_TypeError(); \
             $put(error, 'message', 'second argument of apply is not an array'); \
             throw error; \
         }",
    ),
    // 15.3.4.4
    (
        b"Function.prototype.call",
        "function call(receiver) { \
             return $tail(this, receiver == null ? receiver : $object(receiver)); \
         }",
    ),
    // 15.4.4.2
    (
        b"Array.prototype.toString",
        "function toString() { \
             var length, result = '', part = '', room = 1024, i = 0, value; \
             if ($class(this) !== 'Array') { \
                 value = $make_TypeError(); \
                 $put(value, 'message', 'receiver is of another kind'); \
                 throw value; \
             } \
             length = $get(this, 'length'); \
             if (length > 0) { \
                 for (;;) { \
                     value = $get(this, i); \
                     part = part + (value == null ? '' : $text(value)); \
                     i++; \
                     if (i === length) { break; } \
                     part = part + ','; \
                     if ($size(part) > room) { \
                         result = result + part; \
                         part = ''; \
                         room = 1048576 - $size(result); \
                         if (room > 1024) { room = 1024; } \
                     } \
                 } \
             } \
             return result + part; \
         }",
    ),
    // 15.4.4.4
    (
        b"Array.prototype.concat",
        "function concat(value, other) { \
             var count = $get(arguments, 'length'), list = [], k = 0, i, item, n, length; \
             if ($class(this) === 'Array') { \
                 length = $get(this, 'length'); \
                 for (; k < length; k++) { \
                     if ($has(this, k)) { $put(list, k, $get(this, k)); } \
                 } \
             } else { \
                 $put(list, 0, this); \
                 k = 1; \
             } \
             for (i = 0; i < count; i++) { \
                 item = count > 2 && i > 1 ? $get(arguments, i) \
                     : count > 1 && i > 0 ? other : value; \
                 if ($is_object(item) && $class(item) === 'Array') { \
                     length = $get(item, 'length'); \
                     for (n = 0; n < length; n++, k++) { \
                         if ($has(item, n)) { $put(list, k, $get(item, n)); } \
                     } \
                 } else { \
                     $put(list, k, item); \
                     k++; \
                 } \
             } \
             $put(list, 'length', k); \
             return list; \
         }",
    ),
    // 15.4.4.5
    (
        b"Array.prototype.join",
        "function join(separator) { \
             var length = $get(this, 'length') >>> 0, result = '', part = '', room = 1024, \
                 i = 0, value; \
             separator = separator === void 0 ? ',' : $text(separator); \
             if (length > 0) { \
                 for (;;) { \
                     value = $get(this, i); \
                     part = part + (value == null ? '' : $text(value)); \
                     i++; \
                     if (i === length) { break; } \
                     part = part + separator; \
                     if ($size(part) > room) { \
                         result = result + part; \
                         part = ''; \
                         room = 1048576 - $size(result); \
                         if (room > 1024) { room = 1024; } \
                     } \
                 } \
             } \
             return result + part; \
         }",
    ),
    // 15.4.4.6
    (
        b"Array.prototype.pop",
        "function pop() { \
             var length = $get(this, 'length') >>> 0, value; \
             if (length > 0) { \
                 length--; \
                 value = $get(this, length); \
                 $delete(this, length); \
             } \
             $put(this, 'length', length); \
             return value; \
         }",
    ),
    // 15.4.4.7
    (
        b"Array.prototype.push",
        "function push(value) { \
             var length = $get(this, 'length') >>> 0, count = $get(arguments, 'length'), i; \
             if (count > 0) { \
                 $put(this, length, value); \
                 for (i = 1; i < count; i++) { $put(this, length + i, $get(arguments, i)); } \
             } \
             length = length + count; $put(this, 'length', length); \
             return length; \
         }",
    ),
    // 15.4.4.8
    (
        b"Array.prototype.reverse",
        "function reverse() { \
             var i = 0, k = ($get(this, 'length') >>> 0) - 1, value, other, is_there; \
             for (; i < k; i++, k--) { \
                 value = $get(this, i); \
                 other = $get(this, k); \
                 is_there = $has(this, i); \
                 if ($has(this, k)) { $put(this, i, other); } else { $delete(this, i); } \
                 if (is_there) { $put(this, k, value); } else { $delete(this, k); } \
             } \
             return this; \
         }",
    ),
    // 15.4.4.9
    (
        b"Array.prototype.shift",
        "function shift() { \
             var length = $get(this, 'length') >>> 0, value, i; \
             if (length > 0) { \
                 value = $get(this, '0'); \
                 for (i = 1; i < length; i++) { \
                     if ($has(this, i)) { $put(this, i - 1, $get(this, i)); } \
                     else { $delete(this, i - 1); } \
                 } \
                 length--; \
                 $delete(this, length); \
             } \
             $put(this, 'length', length); \
             return value; \
         }",
    ),
    // 15.4.4.10
    (
        b"Array.prototype.slice",
        "function slice(start, end) { \
             var length = $get(this, 'length') >>> 0, list, i; \
             start = +start; \
             if (start < 0) { start = start + length; } \
             if (!(start > 0)) { start = 0; } \
             end = end === void 0 ? length : +end; \
             if (end < 0) { end = end + length; } \
             if (end > length) { end = length; } \
             list = []; \
             for (i = 0; start < end; i++, start++) { \
                 if ($has(this, start)) { $put(list, i, $get(this, start)); } \
             } \
             $put(list, 'length', i); \
             return list; \
         }",
    ),
    // 15.4.4.12
    (
        b"Array.prototype.splice",
        "function splice(start, size, value) { \
             var length = $get(this, 'length') >>> 0, count = $get(arguments, 'length') - 2, \
                 from = +start, end = +size; \
             var list, i, k; \
             if (count < 0) { count = 0; } \
             if (from < 0) { from = from + length; } \
             if (!(from > 0)) { from = 0; } \
             if (from > length) { from = length; } \
             if (!(end > 0)) { end = 0; } \
             end = end > length - from ? length : from + end; \
             list = []; \
             for (i = from, k = 0; i < end; i++, k++) { \
                 if ($has(this, i)) { $put(list, k, $get(this, i)); } \
             } \
             $put(list, 'length', k); \
             k = from + count; \
             if (k < end) { \
                 for (i = end; i < length; i++, k++) { \
                     if ($has(this, i)) { $put(this, k, $get(this, i)); } \
                     else { $delete(this, k); } \
                 } \
                 while (i > k) { i--; $delete(this, i); } \
             } else if (k > end) { \
                 k = k + length - end; \
                 for (i = length; i > end; ) { \
                     i--; \
                     k--; \
                     if ($has(this, i)) { $put(this, k, $get(this, i)); } \
                     else { $delete(this, k); } \
                 } \
             } \
             if (count > 0) { \
                 $put(this, from, value); \
                 for (i = 1; i < count; i++) { $put(this, from + i, $get(arguments, i + 2)); } \
             } \
             $put(this, 'length', length + from + count - end); \
             return list; \
         }",
    ),
    // 15.4.4.13
    (
        b"Array.prototype.unshift",
        "function unshift(value) { \
             var i = $get(this, 'length') >>> 0, count = $get(arguments, 'length'), \
                 k = i + count, length = k; \
             while (i > 0) { \
                 i--; \
                 k--; \
                 if ($has(this, i)) { $put(this, k, $get(this, i)); } else { $delete(this, k); } \
             } \
             if (count > 0) { \
                 $put(this, 0, value); \
                 for (i = 1; i < count; i++) { $put(this, i, $get(arguments, i)); } \
             } \
             $put(this, 'length', length); \
             return length; \
         }",
    ),
];

/// Those of texts, of truth values, of numbers and of errors, and `Math`; the last two give the
/// default value of an object.
pub const VALUE_FUNCTIONS: [BuiltinFunction; 27] = [
    // 15.5.3.2
    (
        b"String.fromCharCode",
        "function fromCharCode(code) { \
             var count = $get(arguments, 'length'), result = '', part = '', i; \
             for (i = 0; i < count; i++) { \
                 part = part + $character(+$get(arguments, i)); \
                 if ($size(part) > 1024) { result = result + part; part = ''; } \
             } \
             return result + part; \
         }",
    ),
    // 15.5.4.2
    (
        b"String.prototype.toString",
        "function toString() { \
             if ($class(this) === 'String') { return $value(this); } \
             var error = $make_TypeError(); \
             $put(error, 'message', 'receiver is of another kind'); \
             throw error; \
         }",
    ),
    // 15.5.4.3
    (
        b"String.prototype.valueOf",
        "function valueOf() { \
             if ($class(this) === 'String') { return $value(this); } \
             var error = $make_TypeError(); \
             $put(error, 'message', 'receiver is of another kind'); \
             throw error; \
         }",
    ),
    // 15.5.4.4
    (
        b"String.prototype.charAt",
        "function charAt(position) { \
             var code = $unit($text(this), +position); \
             return code === code ? $character(code) : ''; \
         }",
    ),
    // 15.5.4.5
    (
        b"String.prototype.charCodeAt",
        "function charCodeAt(position) { return $unit($text(this), +position); }",
    ),
    // 15.5.4.6
    (
        b"String.prototype.concat",
        "function concat(value) { \
             var result = $text(this), count = $get(arguments, 'length'), i; \
             for (i = 0; i < count; i++) { result = result + $text($get(arguments, i)); } \
             return result; \
         }",
    ),
    // 15.5.4.7
    (
        b"String.prototype.indexOf",
        "function indexOf(text, position) { \
             return $index_of($text(this), $text(text), +position); \
         }",
    ),
    // 15.5.4.8
    (
        b"String.prototype.lastIndexOf",
        "function lastIndexOf(text, position) { \
             return $last_index_of($text(this), $text(text), +position); \
         }",
    ),
    // 15.5.4.13
    (
        b"String.prototype.slice",
        "function slice(start, end) { \
             var text = $text(this), length = $size(text); \
             start = +start; \
             end = end === void 0 ? length : +end; \
             if (start < 0) { start = start + length; } \
             if (end < 0) { end = end + length; } \
             return $part(text, start, end); \
         }",
    ),
    // 15.5.4.14
    (
        b"String.prototype.split",
        "function split(separator, limit) { \
             var text = $text(this), length = $size(text), none = separator === void 0, size, \
                 list, i, start, end; \
             limit = limit === void 0 ? 4294967295 : limit >>> 0; \
             separator = $text(separator); \
             size = $size(separator); \
             list = []; \
             if (limit === 0) { return list; } \
             if (size === 0) { \
                 for (i = 0; i < length && i < limit; i++) { \
                     $put(list, i, $part(text, i, i + 1)); \
                 } \
                 return list; \
             } \
             end = none ? -1 : $index_of(text, separator, 0); \
             $put(list, 0, end < 0 ? text : $part(text, 0, end)); \
             for (i = 1; end >= 0 && i < limit; i++) { \
                 start = end + size; \
                 end = $index_of(text, separator, start); \
                 $put(list, i, $part(text, start, end < 0 ? length : end)); \
             } \
             return list; \
         }",
    ),
    // 15.5.4.15
    (
        b"String.prototype.substring",
        "function substring(start, end) { \
             var text = $text(this); \
             start = +start; \
             end = end === void 0 ? $size(text) : +end; \
             return start > end || end !== end ? $part(text, end, start) \
                 : $part(text, start, end); \
         }",
    ),
    // 15.5.4.16
    (
        b"String.prototype.toLowerCase",
        "function toLowerCase() { return $lower($text(this)); }",
    ),
    // 15.5.4.18
    (
        b"String.prototype.toUpperCase",
        "function toUpperCase() { return $upper($text(this)); }",
    ),
    // 15.6.4.2
    (
        b"Boolean.prototype.toString",
        "function toString() { \
             if ($class(this) === 'Boolean') { return $text($value(this)); } \
             var error = $make_TypeError(); \
             $put(error, 'message', 'receiver is of another kind'); \
             throw error; \
         }",
    ),
    // 15.6.4.3
    (
        b"Boolean.prototype.valueOf",
        "function valueOf() { \
             if ($class(this) === 'Boolean') { return $value(this); } \
             var error = $make_TypeError(); \
             $put(error, 'message', 'receiver is of another kind'); \
             throw error; \
         }",
    ),
    // 15.7.4.2
    (
        b"Number.prototype.toString",
        "function toString(radix) { \
             if ($class(this) === 'Number') { \
                 if (radix === void 0) { return $text($value(this)); } \
                 if (typeof radix === 'number' && radix >= 2 && radix <= 36) { \
                     return $digits($value(this), radix); \
                 } \
                 $stop_Radix(); \
             } \
             var error = $make_TypeError(); \
             $put(error, 'message', 'receiver is of another kind'); \
             throw error; \
         }",
    ),
    // 15.7.4.4
    (
        b"Number.prototype.valueOf",
        "function valueOf() { \
             if ($class(this) === 'Number') { return $value(this); } \
             var error = $make_TypeError(); \
             $put(error, 'message', 'receiver is of another kind'); \
             throw error; \
         }",
    ),
    // 15.11.4.4
    (
        b"Error.prototype.toString",
        "function toString() { \
             var name = $text($get(this, 'name')), message = $text($get(this, 'message')); \
             return message === '' ? name : name + ': ' + message; \
         }",
    ),
    // 15.8.2.1
    (
        b"Math.abs",
        "function abs(value) { value = +value; return value < 0 ? -value : value; }",
    ),
    // 15.8.2.6
    (b"Math.ceil", "function ceil(value) { return +value; }"),
    // 15.8.2.9
    (b"Math.floor", "function floor(value) { return +value; }"),
    // 15.8.2.15
    (b"Math.round", "function round(value) { return +value; }"),
    // 15.8.2.11
    (
        b"Math.max",
        "function max(value, other) { \
             var count = $get(arguments, 'length'), result, next, i; \
             if (count === 0) { $stop_Range(); } \
             result = +value; \
             for (i = 1; i < count; i++) { \
                 next = +(count > 2 && i > 1 ? $get(arguments, i) : other); \
                 if (next !== next || next > result) { result = next; } \
             } \
             return result; \
         }",
    ),
    // 15.8.2.12
    (
        b"Math.min",
        "function min(value, other) { \
             var count = $get(arguments, 'length'), result, next, i; \
             if (count === 0) { $stop_Range(); } \
             result = +value; \
             for (i = 1; i < count; i++) { \
                 next = +(count > 2 && i > 1 ? $get(arguments, i) : other); \
                 if (next !== next || next < result) { result = next; } \
             } \
             return result; \
         }",
    ),
    // 15.8.2.13
    (
        b"Math.pow",
        "function pow(value, other) { \
             var result = 1; \
             value = +value; \
             other = +other; \
             if (other !== other) { return other; } \
             if (other < 0) { value = 1 / value; other = -other; } \
             if (value >= -1 && value <= 1) { other = other === 0 ? 0 : 2 - other % 2; } \
             for (; other > 0; other--) { result = result * value; } \
             return result; \
         }",
    ),
    // the default value with the hint Number (8.6.2.6)
    (
        b"%valueFirst",
        "function valueOf() { \
             var value; \
             if ($is_object($get(this, 'valueOf'))) { \
                 value = $call($get(this, 'valueOf'), this); \
                 if (!$is_object(value)) { return value; } \
             } \
             if ($is_object($get(this, 'toString'))) { \
                 value = $call($get(this, 'toString'), this); \
                 if (!$is_object(value)) { return value; } \
             } \
             value = $make_TypeError(); \
             $put(value, 'message', 'no primitive value'); \
             throw value; \
         }",
    ),
    // the default value with the hint String (8.6.2.6)
    (
        b"%textFirst",
        "function toString() { \
             var value; \
             if ($is_object($get(this, 'toString'))) { \
                 value = $call($get(this, 'toString'), this); \
                 if (!$is_object(value)) { return value; } \
             } \
             if ($is_object($get(this, 'valueOf'))) { \
                 value = $call($get(this, 'valueOf'), this); \
                 if (!$is_object(value)) { return value; } \
             } \
             value = $make_TypeError(); \
             $put(value, 'message', 'no primitive value'); \
             throw value; \
         }",
    ),
];
