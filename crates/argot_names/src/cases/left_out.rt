// What the subset leaves out, and what looks like it but isn't.

/// The cases.
pub const CASES: &str = r#"
== a literal and an import
-- main.go --
package main
import "unsafe" // ERROR 8 import unsafe
var p unsafe.Pointer
func main() {
    _ = 1.5 // ERROR 9 floating-point literal
}
== imports that are left out
-- main.go --
package main
import (
    _ "C" // ERROR 7 import C
    "os"
    "reflect" // ERROR 5 import reflect
    u "unsafe" // ERROR 7 import unsafe
)
var a = reflect.ValueOf(1)
var b u.Pointer
func main() {
    os.Exit(0)
}
== a dot import
-- main.go --
package main
import (
      . "os" // ERROR 7 dot import
)
func main() {
    Exit(0)
}
== left out under a dot
-- main.go --
package main
import . "unsafe" // ERROR 8 dot import; 10 import unsafe
func main() {}
== assembly files
module m
at a.s:1:1 assembly file
at x/b.s:1:1 assembly file
-- a.s --
-- go.mod --
module m
-- main.go --
package main
import _ "m/x"
func main() {}
-- x/b.s --
-- x/x.go --
package x
-- x/y/c.s --
-- x/y/y.go --
package y
-- z/d.s --
== comments for the compiler
-- main.go --
//go:build linux // ERROR 1 build line
package main
//go:linkname a b // ERROR 1 linkname
//go:embed x // ERROR 1 embed
//go:generate y
//go:buildx
//go:build // ERROR 1 build line
//go:embed/z
func main() {} //go:linkname // ERROR 16 linkname
/*
//go:build ignored
*/
== type parameters
-- main.go --
package main
func f[T any](x T) T { return x } // ERROR 7 type parameters
type l[T comparable] []T // ERROR 7 type parameters
type a[K, V any] = int // ERROR 7 type parameters
func main() {}
== literals
-- main.go --
package main
func main() {
    _ = 1i // ERROR 9 imaginary literal
    _ = 2.5e3 // ERROR 9 floating-point literal
    _ = 0x1p-2 // ERROR 9 floating-point literal
    _, _ = -.5, 1.i // ERROR 13 floating-point literal; 17 imaginary literal
    _ = 1e3 + 10 // ERROR 9 floating-point literal
}
== types
-- main.go --
package main
var a float32 // ERROR 7 floating-point type
var b []float64 // ERROR 9 floating-point type
var c map[complex64]complex128 // ERROR 11 complex type; 21 complex type
var d uintptr // ERROR 7 uintptr
type e interface{ comparable } // ERROR 19 comparable
func main() {}
== built ins
-- main.go --
package main
func main() {
    recover() // ERROR 5 recover
    _ = real(complex(1, 2)) // ERROR 9 complex built-in; 14 complex built-in
    _ = imag(3) // ERROR 9 complex built-in
    f := recover // ERROR 10 recover
    f()
}
== shadowed names
-- a.go --
package main
func recover() {}
type float64 int
func f(real int) int {
    return real
}
func main() {
    recover()
    var x float64
    _ = x
    {
        imag := 1
        _ = imag
    }
    _ = imag(1) // ERROR 9 complex built-in
    uintptr, y := 1, uintptr(2) // ERROR 22 uintptr
    _, _ = uintptr, y
}
-- b.go --
package main
import complex "os"
func g() {
    complex.Exit(1)
}
-- c.go --
package main
var c = complex(1, 2) // ERROR 9 complex built-in
== members and keys
-- main.go --
package main
type t struct{ float64 int; real int }
func main() {
    x := t{float64: 1, real: 2}
    _ = x.real
    _ = map[int]int{1: 2}
    _ = []int{len("a"): imag(2)} // ERROR 25 complex built-in
    goto real // ERROR 5 goto
real:
    _ = 1
}
== goto
-- main.go --
package main
func main() {
    l:
        goto l // ERROR 9 goto
}
== method expressions
module m
-- go.mod --
module m
-- main.go --
package main
import (
    "m/x"
    y "m/x"
)
type t int
func (t) m() {}
type a = t
func main() {
    _ = t.m // ERROR 9 method expression
    _ = (*t).m // ERROR 9 method expression
    _ = ((*(t))).m // ERROR 9 method expression
    _ = (interface{ m() }).m // ERROR 9 method expression
    _ = a.m // ERROR 9 method expression
    _ = x.T.M // ERROR 9 method expression
    _ = (*y.T).M // ERROR 9 method expression
    _ = x.V.M
    var v t
    v.m()
    _ = (&v).m
    t := v
    _ = t.m
    type b t2
    _ = (*b).m // ERROR 9 method expression
}
type t2 struct{ error }
var _ = error.Error // ERROR 9 method expression
var _ = float64.x // ERROR 9 floating-point type; 9 method expression
var _ = (*float64).x // ERROR 9 method expression; 11 floating-point type
-- x/x.go --
package x
type T int
func (T) M() {}
var V T
== functions without a body
module m
entry m,,f
entry m,t,m
entry m,u,n
entry ,,g
entry m/x,,h
-- go.mod --
module m
-- main.go --
package main
import "m/x"
func f(x string) string
func g() // ERROR 6 function without body
type t int
func (t) m()
func (*t) n() // ERROR 11 function without body
func (a *(t)) m()
type u int
func (u) m() // ERROR 10 function without body
func ((*u)) n()
func (t) o() {}
func main() {
    x.F()
}
-- x/x.go --
package x
func F() // ERROR 6 function without body
func h()
func f() // ERROR 6 function without body
== functions of the library
-- main.go --
package main
import (
    "fmt"
    "os"
    "strings"
)
func main() {
    fmt.Println(strings.ToUpper(os.Args[0]))
}
== functions of stubs
module m
entry lib,,g
at stubs/lib/a.s:1:1 assembly file
-- go.mod --
module m
-- main.go --
package main
import "lib"
func main() {
    lib.F()
}
-- stubs/lib/a.go --
package lib
func F() // ERROR 6 function without body
func g()
var x float32 // ERROR 7 floating-point type
-- stubs/lib/a.s --
-- stubs/other/a.go --
package other
func F()
== a go line
module m
go 1.22
-- go.mod --
// go 1.23
module m

  go 1.22 // ERROR 3 go line
go 1.18
-- main.go --
package main
func main() {}
== a later go line
go 2.0
-- go.mod --
gone
go
go 2.0 // x // ERROR 1 go line
-- main.go --
package main
func main() {}
== an earlier go line
go 1.21
-- go.mod --
go 1.21
go 1.22
-- main.go --
package main
func main() {}
== an odd go line
-- go.mod --
go x
go 1.22
-- main.go --
package main
func main() {}
== in order of place
module m
go 1.22
at main.s:1:1 assembly file
-- a/z.go --
package a
var x float64 // ERROR 7 floating-point type
-- b/b.go --
package b
import "unsafe"
var x uintptr
-- go.mod --
module m
go 1.22.1 // ERROR 1 go line
-- main.go --
package main
import (
    _ "m/a"
    _ "reflect" // ERROR 7 import reflect
)
func main() {
    l:
    _ = 1.5; _ = 2i; goto l // ERROR 9 floating-point literal; 18 imaginary literal; 22 goto
}
func f() // ERROR 6 function without body
var _ = float64(1) // ERROR 9 floating-point type
//go:embed x // ERROR 1 embed
-- main.s --
"#;
