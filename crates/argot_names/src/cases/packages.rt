// What is wrong with packages and imports, and what isn't.

/// The cases.
pub const CASES: &str = r#"
== no main function
answer no main function
-- main.go --
package main
== main in another package
answer no main function
-- main.go --
package other
func main() {}
== main as a variable
answer no main function
-- main.go --
package main
var main int
== main as a method
answer no main function
-- main.go --
package main
type t int
func (t) main() {}
== two names
-- a.go --
package main
func main() {}
-- b.go --
package other // ERROR 1 the package name differs
== two names in a reached folder
module m
-- go.mod --
module m
-- main.go --
package main
import _ "m/x"
func main() {}
-- x/a.go --
package x
-- x/b.go --
package y // ERROR 1 the package name differs
== no such package
-- main.go --
package main
import "nowhere" // ERROR 8 no such package
func main() {}
== own folder not found
module m
-- go.mod --
module m
-- main.go --
package main
import "m/x" // ERROR 8 no such package
func main() {}
-- y/a.go --
package x
== first of two missing
-- a.go --
package main
import "p" // ERROR 8 no such package
func main() {}
-- b.go --
package main
import "q"
== two packages in a cycle
module m
-- a/a.go --
package a
import _ "m/b" // ERROR 8 an import cycle
-- b/b.go --
package b
import _ "m/a"
-- go.mod --
module m
-- main.go --
package main
import _ "m/a"
func main() {}
== own package imported
module m
-- go.mod --
module m
-- main.go --
package main
import _ "m" // ERROR 8 an import cycle
func main() {}
== cycle behind a clean import
module m
-- a/a.go --
package a
-- c/c.go --
package c
import _ "m/d" // ERROR 8 an import cycle
-- d/d.go --
package d
import _ "m/e"
-- e/e.go --
package e
import _ "m/a"
import _ "m/c"
-- go.mod --
module m
-- main.go --
package main
import _ "m/a"
import _ "m/c"
func main() {}
== missing before a cycle
module m
-- go.mod --
module m
-- main.go --
package main
import _ "m"
import "p" // ERROR 8 no such package
func main() {}
== two names before missing
-- a.go --
package main
import "p"
func main() {}
-- b.go --
package other // ERROR 1 the package name differs
== faults of a package that is not reached
module m
-- go.mod --
module m
-- main.go --
package main
func main() {}
-- x/a.go --
package x
import "p"
var a, a int
var b = c
== from stubs
module m
-- go.mod --
module m
-- main.go --
package main
import "lib"
func main() {
    lib.F()
}
-- stubs/lib/a.go --
package lib
func F() {}
== own folder before stubs
module m
-- go.mod --
module m
-- lib/a.go --
package lib
func F() {}
-- main.go --
package main
import "m/lib"
func main() {
    lib.F()
}
-- stubs/m/lib/a.go --
package lib
func G() {}
"#;
