// A smallest program with each fault of names and each feature that is left out, as docs/language.md has them.

/// The cases.
pub const CASES: &str = r#"
== no main function
answer no main function
-- main.go --
package main
== the package name differs
-- a.go --
package main

func main() {}
-- b.go --
package other // ERROR 1 the package name differs
== no such package
-- main.go --
package main

import "nowhere" // ERROR 8 no such package

func main() {}
== an import cycle
module m
-- go.mod --
module m
-- main.go --
package main

import _ "m" // ERROR 8 an import cycle

func main() {}
== declared again
-- main.go --
package main

func main() {}

var main int // ERROR 5 declared again
== not declared
-- main.go --
package main

func main() {
    x = 1 // ERROR 5 not declared
}
== import unsafe
-- main.go --
package main

import _ "unsafe" // ERROR 10 import unsafe

func main() {}
== import reflect
-- main.go --
package main

import _ "reflect" // ERROR 10 import reflect

func main() {}
== import C
-- main.go --
package main

import _ "C" // ERROR 10 import C

func main() {}
== dot import
-- main.go --
package main

import . "os" // ERROR 8 dot import

func main() {}
== assembly file
at a.s:1:1 assembly file
-- a.s --
-- main.go --
package main

func main() {}
== linkname
-- main.go --
package main

//go:linkname main other // ERROR 1 linkname
func main() {}
== build line
-- main.go --
//go:build linux // ERROR 1 build line
package main

func main() {}
== embed
-- main.go --
package main

//go:embed text // ERROR 1 embed
var text string

func main() {}
== type parameters
-- main.go --
package main

type list[T any] []T // ERROR 10 type parameters

func main() {}
== floating-point literal
-- main.go --
package main

var x = 1.5 // ERROR 9 floating-point literal

func main() {}
== imaginary literal
-- main.go --
package main

var x = 2i // ERROR 9 imaginary literal

func main() {}
== floating-point type
-- main.go --
package main

var x float64 // ERROR 7 floating-point type

func main() {}
== complex type
-- main.go --
package main

var x complex128 // ERROR 7 complex type

func main() {}
== complex built-in
-- main.go --
package main

var x = real(1) // ERROR 9 complex built-in

func main() {}
== uintptr
-- main.go --
package main

var x uintptr // ERROR 7 uintptr

func main() {}
== comparable
-- main.go --
package main

type t interface{ comparable } // ERROR 19 comparable

func main() {}
== recover
-- main.go --
package main

func main() {
    recover() // ERROR 5 recover
}
== goto
-- main.go --
package main

func main() {
again:
    goto again // ERROR 5 goto
}
== method expression
-- main.go --
package main

type t int

func (t) m() {}

var f = t.m // ERROR 9 method expression

func main() {}
== function without body
-- main.go --
package main

func f() // ERROR 6 function without body

func main() {}
== go line
module m
go 1.22
-- go.mod --
module m

go 1.22 // ERROR 1 go line
-- main.go --
package main

func main() {}
"#;
